//! Circuits of operators on words.
//!
//! - `circuits`: an operator, the width of its operands, how many numbers are tried for each and the step between two, and for how many
//!   pairs the circuit gives what the machine gives: `add 8 18 15 => 324`. By zero a division may give anything.
//! - `swapped`: an operator and a width, and what is the same where its operands are swapped: `add 5 => word and graph`.

ghost use Rattle.std.specs.Prelude.{◌≡◌, ◌<◌, IsTrue, length};
ghost use Rattle.std.specs.List.{All};
ghost use Rattle.aig.specs.Graph.{IsIn};

use aig::{Aig, Lit};
use aig_words::{add, div, eq, lt, mul, mux, or, pick, rem, sar, shl, shr, slt, sub, xor};
use case_rows::{Fault, Judge, first_named, put, put_number, size_at, small_at};
use items::both;
use std::alloc::{AllocError, Global};

#[derive(Clone, Copy)]
pub enum Op {
    Add,
    Sub,
    Mul,
    Div,
    Rem,
    Shl,
    Shr,
    Sar,
    Eq,
    Lt,
    Slt,
    Mux,
    Or,
    Xor,
    Pick,
}

static OPS: [(&[u8], Op); 15] = [
    (b"add", Op::Add),
    (b"sub", Op::Sub),
    (b"mul", Op::Mul),
    (b"div", Op::Div),
    (b"rem", Op::Rem),
    (b"shl", Op::Shl),
    (b"shr", Op::Shr),
    (b"sar", Op::Sar),
    (b"eq", Op::Eq),
    (b"lt", Op::Lt),
    (b"slt", Op::Slt),
    (b"mux", Op::Mux),
    (b"or", Op::Or),
    (b"xor", Op::Xor),
    (b"pick", Op::Pick),
];

// Puts new inputs at the end of a word.
fn inputs(aig: &mut Aig, width: usize, word: &mut Vec<Lit>) -> Result<(), AllocError> {
    for _k in 0..width {
        let input = aig.input()?;
        word.push(input)?;
    }
    Ok(())
}

// Whether a word's literals are in the graph.
fn fits(aig: &Aig, word: &[Lit]) -> bool
    ensures { IsTrue result → All (IsIn aig.now) word.now }
{
    let len = aig.len();
    word.iter().all(|l| l.node < len)
}

fn one(alloc: Global, l: Result<Lit, AllocError>) -> Result<Vec<Lit>, AllocError> {
    let l = l?;
    vec![in alloc; l; 1]
}

// The circuit of an operator. A choice goes by the literal c; the last three take the lowest literals alone.
fn circuit(
    alloc: Global,
    aig: &mut Aig,
    op: Op,
    c: Lit,
    a: &[Lit],
    b: &[Lit],
) -> Result<Vec<Lit>, AllocError>
    requires some { 0 < length a.now }
    requires same { length a.now ≡ length b.now }
    requires c_in { IsIn aig.old c }
    requires a_in { All (IsIn aig.old) a.now }
    requires b_in { All (IsIn aig.old) b.now }
{
    match op {
        Op::Add => add(alloc, aig, a, b),
        Op::Sub => sub(alloc, aig, a, b),
        Op::Mul => mul(alloc, aig, a, b),
        Op::Div => div(alloc, aig, a, b),
        Op::Rem => rem(alloc, aig, a, b),
        Op::Shl => shl(alloc, aig, a, b),
        Op::Shr => shr(alloc, aig, a, b),
        Op::Sar => sar(alloc, aig, a, b),
        Op::Eq => one(alloc, eq(aig, a, b)),
        Op::Lt => one(alloc, lt(aig, a, b)),
        Op::Slt => one(alloc, slt(aig, a, b)),
        Op::Mux => mux(alloc, aig, c, a, b),
        Op::Or => one(alloc, or(aig, a[0], b[0])),
        Op::Xor => one(alloc, xor(aig, a[0], b[0])),
        Op::Pick => one(alloc, pick(aig, c, a[0], b[0])),
    }
}

// The same, where the operands meet its conditions.
fn try_circuit(
    alloc: Global,
    aig: &mut Aig,
    op: Op,
    c: Lit,
    a: &[Lit],
    b: &[Lit],
) -> Result<Vec<Lit>, Fault> {
    if a.is_empty() || a.len() != b.len() {
        return Err(Fault::Form);
    }
    if c.node >= aig.len() || !fits(aig, a) || !fits(aig, b) {
        return Err(Fault::Form);
    }
    let word = circuit(alloc, aig, op, c, a, b)?;
    Ok(word)
}

// The value of a literal.
fn bit_of(alloc: Global, aig: &Aig, values: &[bool], l: Lit) -> Result<bool, Fault> {
    if values.len() != aig.input_count() || l.node >= aig.len() {
        return Err(Fault::Form);
    }
    let bit = aig.eval(alloc, values, l)?;
    Ok(bit)
}

// A graph with an operator's operands.
struct Board {
    alloc: Global,
    aig: Aig,
    c: Lit,
    a: Vec<Lit>,
    b: Vec<Lit>,
    out: Vec<Lit>,
    values: Vec<bool>,
}

impl Drop for Board {
    fn drop(self) {
        let Board {
            alloc: _,
            aig: _,
            c: _,
            a: _,
            b: _,
            out: _,
            values: _,
        } = self;
    }
}

// Two numbers, and whether the first is chosen.
#[derive(Clone, Copy)]
struct Given {
    x: u8,
    y: u8,
    chosen: bool,
}

impl Board {
    fn new(alloc: Global, aig: Aig) -> Board {
        Board {
            alloc,
            aig,
            c: Lit::constant(false),
            a: Vec::new(alloc),
            b: Vec::new(alloc),
            out: Vec::new(alloc),
            values: Vec::new(alloc),
        }
    }

    fn lay(&mut self, width: usize) -> Result<(), Fault> {
        self.c = self.aig.input()?;
        inputs(&mut self.aig, width, &mut self.a)?;
        inputs(&mut self.aig, width, &mut self.b)?;
        Ok(())
    }

    fn make(&mut self, op: Op) -> Result<(), Fault> {
        self.out = try_circuit(self.alloc, &mut self.aig, op, self.c, &self.a, &self.b)?;
        Ok(())
    }

    fn make_swapped(&mut self, op: Op) -> Result<Vec<Lit>, Fault> {
        try_circuit(self.alloc, &mut self.aig, op, self.c, &self.b, &self.a)
    }

    // Gives the inputs their values.
    fn set(&mut self, given: Given) -> Result<(), Fault> {
        self.values.clear();
        self.values.push(given.chosen)?;
        set_word(&mut self.values, self.a.len(), given.x)?;
        set_word(&mut self.values, self.b.len(), given.y)
    }

    // The number that the circuit gives.
    fn number(&self) -> Result<i16, Fault> {
        let mut n: i16 = 0;
        let mut bit: i16 = 1;
        for l in &self.out {
            if bit_of(self.alloc, &self.aig, &self.values, *l)? {
                n |= bit;
            }
            bit = bit.wrapping_mul(2);
        }
        Ok(n)
    }

    // Whether the circuit gives what the machine gives.
    fn agrees(&mut self, op: Op, width: u8, given: Given) -> Result<bool, Fault> {
        self.set(given)?;
        let is = self.number()?;
        Ok(match wanted(op, width, given) {
            Some(wanted) => is == wanted,
            None => true,
        })
    }

    // How many pairs of numbers an operator gets right, of those by whose steps the table goes.
    fn right(&mut self, op: Op, width: u8, count: u8, step: u8) -> Result<u64, Fault> {
        let mut right: u64 = 0;
        for i in 0..count {
            for j in 0..count {
                let given = Given {
                    x: i.wrapping_mul(step),
                    y: j.wrapping_mul(step),
                    chosen: (i ^ j) % 2 == 1,
                };
                if self.agrees(op, width, given)? {
                    right = right.saturating_add(1);
                }
            }
        }
        Ok(right)
    }
}

fn set_word(values: &mut Vec<bool>, width: usize, number: u8) -> Result<(), Fault> {
    let mut left = number;
    for _k in 0..width {
        values.push(left % 2 == 1)?;
        left /= 2;
    }
    Ok(())
}

// A number of a width as a two's complement number.
fn read(modulus: i16, n: u8) -> i32 {
    let n = i32::from(n);
    let modulus = i32::from(modulus);
    if n >= modulus / 2 { n - modulus } else { n }
}

// What the machine says of two numbers of a width of at most 8 bits.
fn wanted(op: Op, width: u8, given: Given) -> Option<i16> {
    let Given { x, y, chosen } = given;
    let modulus: i16 = 1 << width.min(8);
    let places = y.min(8);
    let (a, b) = (i32::from(x), i32::from(y));
    let value = match op {
        Op::Add => a + b,
        Op::Sub => a - b,
        Op::Mul => a * b,
        Op::Div => i32::from(x.checked_div(y)?),
        Op::Rem => i32::from(x.checked_rem(y)?),
        Op::Shl => a << places,
        Op::Shr => a >> places,
        Op::Sar => read(modulus, x) >> places,
        Op::Eq => i32::from(x == y),
        Op::Lt => i32::from(x < y),
        Op::Slt => i32::from(read(modulus, x) < read(modulus, y)),
        Op::Mux | Op::Pick => i32::from(if chosen { x } else { y }),
        Op::Or => i32::from(x | y),
        Op::Xor => i32::from(x ^ y),
    };
    i16::try_from(value.rem_euclid(i32::from(modulus))).ok()
}

#[derive(Drop)]
pub struct Circuits {
    pub alloc: Global,
}

fn right(board: &mut Board, op: Op, question: &[u8]) -> Result<u64, Fault> {
    let width = small_at(question, 1)?;
    let count = small_at(question, 2)?;
    let step = small_at(question, 3)?;
    board.lay(usize::from(width))?;
    board.make(op)?;
    board.right(op, width, count, step)
}

// A graph with nothing in it.
fn board_of(alloc: Global) -> Result<Board, Fault> {
    let aig = Aig::new(alloc)?;
    Ok(Board::new(alloc, aig))
}

impl Judge for Circuits {
    fn row(&mut self, question: &[u8], _wanted: &[u8], said: &mut Vec<u8>) -> Result<(), Fault> {
        let op = first_named(&OPS, question)?;
        let mut board = board_of(self.alloc)?;
        let right = right(&mut board, op, question);
        let (_, right) = both(board, right)?;
        put_number(said, right)
    }
}

#[derive(Drop)]
pub struct Swapped {
    pub alloc: Global,
}

// Tells what is the same once the operands are swapped.
fn swap(board: &mut Board, op: Op, said: &mut Vec<u8>) -> Result<(), Fault> {
    let len = board.aig.len();
    let word = board.make_swapped(op)?;
    put_same(
        said,
        board.out.as_slice() == word.as_slice(),
        board.aig.len() == len,
    )
}

fn put_same(said: &mut Vec<u8>, word: bool, graph: bool) -> Result<(), Fault> {
    put(said, if word { b"word" } else { b"no word" })?;
    put(said, if graph { b" and graph" } else { b"" })
}

fn try_swapped(
    board: &mut Board,
    op: Op,
    question: &[u8],
    said: &mut Vec<u8>,
) -> Result<(), Fault> {
    board.lay(size_at(question, 1)?)?;
    board.make(op)?;
    swap(board, op, said)
}

impl Judge for Swapped {
    fn row(&mut self, question: &[u8], _wanted: &[u8], said: &mut Vec<u8>) -> Result<(), Fault> {
        let op = first_named(&OPS, question)?;
        let mut board = board_of(self.alloc)?;
        try_swapped(&mut board, op, question, said)
    }
}
