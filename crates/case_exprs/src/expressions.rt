//! Expressions as words, each operator before its operands: `cond now0.1 01 slice.2.2 now1.4`.
//!
//! Digits are a constant. `now1.4` is entry 1 of the present, 4 bits wide. The numbers of `slice` are its lowest bit and its width, that
//! of `zext` and `sext` the width, and those of `dyn_slice` and `dyn_put` whether the index is signed, whether it is negated, the bits
//! between two indices, what is added, and the width.

use crate::vectors::digits;
use case_rows::{Fault, named, part, signed, small};
use fourvec::Spot;
use std::alloc::Global;
use svex_arena::{Arena, Bin, Node, Shape, Un, VarName};

static UNARY: [(&[u8], Un); 7] = [
    (b"unfloat", Un::Unfloat),
    (b"not", Un::Not),
    (b"neg", Un::Neg),
    (b"red_and", Un::RedAnd),
    (b"red_or", Un::RedOr),
    (b"red_xor", Un::RedXor),
    (b"truth", Un::Truth),
];

static BINARY: [(&[u8], Bin); 18] = [
    (b"and", Bin::And),
    (b"or", Bin::Or),
    (b"xor", Bin::Xor),
    (b"res", Bin::Res),
    (b"eq", Bin::Eq),
    (b"lt", Bin::Lt),
    (b"slt", Bin::Slt),
    (b"add", Bin::Add),
    (b"sub", Bin::Sub),
    (b"mul", Bin::Mul),
    (b"div", Bin::Div),
    (b"rem", Bin::Rem),
    (b"sdiv", Bin::Sdiv),
    (b"srem", Bin::Srem),
    (b"shl", Bin::Shl),
    (b"shr", Bin::Shr),
    (b"sar", Bin::Sar),
    (b"concat", Bin::Concat),
];

// An operator on one operand that has numbers.
#[derive(Clone, Copy)]
enum Part {
    Slice,
    Zext,
    Sext,
}

static PARTS: [(&[u8], Part); 3] = [
    (b"slice", Part::Slice),
    (b"zext", Part::Zext),
    (b"sext", Part::Sext),
];

// A choice, or a part at a place that an operand says.
#[derive(Clone, Copy)]
enum Choice {
    Cond,
    Pick,
    DynSlice,
    DynPut,
}

static CHOICES: [(&[u8], Choice); 4] = [
    (b"cond", Choice::Cond),
    (b"pick", Choice::Pick),
    (b"dyn_slice", Choice::DynSlice),
    (b"dyn_put", Choice::DynPut),
];

/// The kinds of variables.
#[derive(Clone, Copy)]
pub enum Kind {
    Now,
    Prev,
    Stim,
    Chosen,
    Sampled,
}

static KINDS: [(&[u8], Kind); 5] = [
    (b"now", Kind::Now),
    (b"prev", Kind::Prev),
    (b"stim", Kind::Stim),
    (b"chosen", Kind::Chosen),
    (b"sampled", Kind::Sampled),
];

/// The kind of a name.
pub fn kind_of(name: &[u8]) -> Option<Kind> {
    named(&KINDS, name)
}

// A variable by its kind and number.
fn variable(name: &[u8]) -> Option<VarName> {
    let letters = name.iter().position(|c| *c <= b'9').unwrap_or(name.len());
    let kind = kind_of(name.get(..letters)?)?;
    let at = usize::from(small(name.get(letters..)?)?);
    Some(match kind {
        Kind::Now => VarName::Now(at),
        Kind::Prev => VarName::Prev(at),
        Kind::Stim => VarName::Stim(at),
        Kind::Chosen => VarName::Chosen(at),
        Kind::Sampled => VarName::Sampled(at),
    })
}

fn number_at(word: &[u8], at: usize) -> Option<u8> {
    small(part(word, b'.', at))
}

fn spot(word: &[u8]) -> Option<Spot> {
    let (negative, size) = signed(part(word, b'.', 4))?;
    let size = i64::from(u32::try_from(size).ok()?);
    Some(Spot {
        signed: number_at(word, 1)? == 1,
        negate: number_at(word, 2)? == 1,
        each: number_at(word, 3)?,
        add: if negative { -size } else { size },
        width: number_at(word, 5)?,
    })
}

// A part of an operand.
fn part_shape(part: Part, word: &[u8], of: Node) -> Option<Shape> {
    let first = number_at(word, 1)?;
    Some(match part {
        Part::Slice => Shape::Slice {
            of,
            lo: first,
            width: number_at(word, 2)?,
        },
        Part::Zext => Shape::Zext(of, first),
        Part::Sext => Shape::Sext(of, first),
    })
}

// A part at the place that an operand says, which may be replaced.
fn place_shape(word: &[u8], of: Node, at: Node, put: Option<Node>) -> Option<Shape> {
    let spot = spot(word)?;
    Some(match put {
        None => Shape::DynSlice { of, at, spot },
        Some(put) => Shape::DynPut { of, at, spot, put },
    })
}

fn choice_shape(
    choice: Choice,
    word: &[u8],
    a: Node,
    b: Node,
    stack: &mut Vec<Node>,
) -> Option<Shape> {
    match choice {
        Choice::Cond => Some(Shape::Cond(a, b, stack.pop()?)),
        Choice::Pick => Some(Shape::Pick(a, b, stack.pop()?)),
        Choice::DynSlice => place_shape(word, a, b, None),
        Choice::DynPut => {
            let put = stack.pop()?;
            place_shape(word, a, b, Some(put))
        }
    }
}

// The shape of an operator over the operands that stand after it, which are taken off the stack.
fn operator_shape(word: &[u8], name: &[u8], stack: &mut Vec<Node>) -> Option<Shape> {
    let a = stack.pop()?;
    if let Some(op) = named(&UNARY, name) {
        return Some(Shape::Unary(op, a));
    }
    if let Some(part) = named(&PARTS, name) {
        return part_shape(part, word, a);
    }
    let b = stack.pop()?;
    if let Some(op) = named(&BINARY, name) {
        return Some(Shape::Binary(op, a, b));
    }
    choice_shape(named(&CHOICES, name)?, word, a, b, stack)
}

// The shape of a word.
fn shape(word: &[u8], stack: &mut Vec<Node>) -> Option<Shape> {
    if let Some(value) = digits(word) {
        return Some(Shape::Const(value));
    }
    let name = part(word, b'.', 0);
    match variable(name) {
        Some(variable) => Some(Shape::Var(variable, number_at(word, 1)?)),
        None => operator_shape(word, name, stack),
    }
}

// Puts the node of a shape on the stack, if it fits.
fn push(
    arena: &mut Arena,
    alloc: Global,
    shape: Shape,
    stack: &mut Vec<Node>,
) -> Result<(), Fault> {
    if !arena.fits(&shape) {
        return Err(Fault::Form);
    }
    let node = arena.intern(alloc, shape)?;
    stack.push(node)?;
    Ok(())
}

fn stacked(
    arena: &mut Arena,
    alloc: Global,
    text: &[u8],
    stack: &mut Vec<Node>,
) -> Result<(), Fault> {
    for word in text.rsplit(|c| *c == b' ') {
        if !word.is_empty() {
            let shape = shape(word, stack).ok_or(Fault::Form)?;
            push(arena, alloc, shape, stack)?;
        }
    }
    Ok(())
}

/// The node of an expression. The words are taken from the last to the first.
pub fn built(arena: &mut Arena, alloc: Global, text: &[u8]) -> Result<Node, Fault> {
    let mut stack: Vec<Node> = Vec::new(alloc);
    let done = stacked(arena, alloc, text, &mut stack);
    let node = stack.pop();
    if stack.is_empty() {
        done?;
        node.ok_or(Fault::Form)
    } else {
        Err(Fault::Form)
    }
}
