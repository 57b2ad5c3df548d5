//! Vectors, and values of expressions.
//!
//! - `planes`: a vector's own calls: `width 1x0z => 4`, `up 1x0z => 1100`, `low 1x0z => 1001`, `bit 0 1x0z => z`, `is_bool 01 => yes`,
//!   `below x1x 01z => yes`.
//! - `entries`: the vectors of each kind of variable: `now 000 001`.
//! - `values`: an expression of the graph and its value, whose width the node has: `add 0111 0001 => 1000`.

ghost use Rattle.std.specs.Prelude.{◌≤◌};

use case_exprs::{Kind, built, digits, kind_of, put_digits, read_vectors};
use case_rows::{Fault, Judge, first_named, put, put_number, small_at, word, words_from};
use fourvec::Four;
use std::alloc::Global;
use svex_arena::{Arena, Env};

#[derive(Clone, Copy)]
pub struct Planes;

#[derive(Clone, Copy)]
enum Call {
    Width,
    Up,
    Low,
    IsBool,
    Below,
    Bit,
}

static CALLS: [(&[u8], Call); 6] = [
    (b"width", Call::Width),
    (b"up", Call::Up),
    (b"low", Call::Low),
    (b"is_bool", Call::IsBool),
    (b"below", Call::Below),
    (b"bit", Call::Bit),
];

fn put_truth(said: &mut Vec<u8>, holds: bool) -> Result<(), Fault> {
    put(said, if holds { b"yes" } else { b"no" })
}

// Puts the bits of a word of a plane.
fn put_plane(said: &mut Vec<u8>, width: u8, plane: u128) -> Result<(), Fault>
    requires { width ≤ 128 }
{
    for below in 0..width {
        let bit = plane >> (width - 1 - below) & 1;
        put(said, if bit == 1 { b"1" } else { b"0" })?;
    }
    Ok(())
}

fn put_bit(said: &mut Vec<u8>, question: &[u8], a: &Four) -> Result<(), Fault> {
    let at = small_at(question, 2)?;
    if at >= a.width() {
        return Err(Fault::Form);
    }
    put_digits(said, &a.slice(at, 1))
}

fn vector_at(text: &[u8], at: usize) -> Result<Four, Fault> {
    digits(word(text, at)).ok_or(Fault::Form)
}

fn put_below(said: &mut Vec<u8>, question: &[u8], a: &Four) -> Result<(), Fault> {
    let b = vector_at(question, 2)?;
    put_truth(said, a.below(&b))
}

impl Planes {
    fn say(&self, question: &[u8], a: &Four, said: &mut Vec<u8>) -> Result<(), Fault> {
        match first_named(&CALLS, question)? {
            Call::Width => put_number(said, u64::from(a.width())),
            Call::Up => put_plane(said, a.width(), a.up()),
            Call::Low => put_plane(said, a.width(), a.low()),
            Call::IsBool => put_truth(said, a.is_bool()),
            Call::Below => put_below(said, question, a),
            Call::Bit => put_bit(said, question, a),
        }
    }
}

impl Judge for Planes {
    fn row(&mut self, question: &[u8], _wanted: &[u8], said: &mut Vec<u8>) -> Result<(), Fault> {
        let a = vector_at(question, 1)?;
        self.say(question, &a, said)
    }
}

#[derive(Drop)]
pub struct Entries<'a> {
    pub env: &'a mut Env,
}

fn set_entries(list: &mut Vec<Four>, words: &[u8]) -> Result<(), Fault> {
    list.clear();
    read_vectors(list, words_from(words, 1))
}

fn set_kind(env: &mut Env, kind: Kind, words: &[u8]) -> Result<(), Fault> {
    match kind {
        Kind::Now => set_entries(&mut env.present, words),
        Kind::Prev => set_entries(&mut env.previous, words),
        Kind::Stim => set_entries(&mut env.stim, words),
        Kind::Chosen => set_entries(&mut env.chosen, words),
        Kind::Sampled => set_entries(&mut env.sampled, words),
    }
}

impl<'a> Judge for Entries<'a> {
    fn row(&mut self, words: &[u8], wanted: &[u8], said: &mut Vec<u8>) -> Result<(), Fault> {
        let kind = kind_of(word(words, 0)).ok_or(Fault::Form)?;
        set_kind(self.env, kind, words)?;
        put(said, wanted)
    }
}

#[derive(Drop)]
pub struct Values<'a> {
    alloc: Global,
    arena: Arena,
    env: &'a Env,
}

impl<'a> Values<'a> {
    pub fn new(alloc: Global, env: &'a Env) -> Values<'a> {
        Values {
            alloc,
            arena: Arena::new(alloc),
            env,
        }
    }
}

// Puts a value as it is wanted, where it is that one and has the width of its node.
fn put_value(said: &mut Vec<u8>, value: &Four, width: u8, wanted: &[u8]) -> Result<(), Fault> {
    if width != value.width() {
        put_digits(said, value)?;
        put(said, b" of another width")
    } else if digits(wanted) == Some(*value) {
        put(said, wanted)
    } else {
        put_digits(said, value)
    }
}

impl<'a> Judge for Values<'a> {
    fn row(&mut self, question: &[u8], wanted: &[u8], said: &mut Vec<u8>) -> Result<(), Fault> {
        let node = built(&mut self.arena, self.alloc, question)?;
        if node.index() >= self.arena.len() {
            return Err(Fault::Form);
        }
        let value = self.arena.eval(self.alloc, node, self.env)?;
        put_value(said, &value, self.arena.width(node), wanted)
    }
}
