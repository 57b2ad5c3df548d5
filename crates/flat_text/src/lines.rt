//! What puts each word and each line of a flat design's text behind a text. Each clause says the text exactly, so that whole
//! texts are equations of lists; no line is made anywhere else.

ghost use Rattle.std.specs.Prelude.{◌≡◌, ◌++◌, ◌<◌, IsTrue, OnOk, ◌∷◌, codes};
ghost use Rattle.flat_text.specs.Lines as t;
ghost use Rattle.std.specs.List.{flat_map};
ghost use Rattle.flat_text.specs.FlatTexts.{FitsSpot, HasSpot, is_long};
ghost use Rattle.flat_text.specs.Lines.{ended, next, value_text, seg_text, lhs_text, flag, spot_text, name_has_form, name_text, has_form, shape_text, node_line, drive_line, join_line, wire_line};

use flat_net::Join;
use fourvec::{Four, Spot, digit};
use itoa::Buffer;
use lhs_alias::{Lhs, Seg};
use std::alloc::AllocError;
use sv_outside::Signal;
use svex_shape::{Bin, Node, Shape, Un, VarName};

/// A value: its width and its bits.
pub fn push_value(text: &mut Vec<u8>, value: &Four) -> Result<(), AllocError>
    ensures { OnOk result (text.new.items ≡ text.old.items ++ value_text value.now) }
{
    let mut buffer = Buffer::new();
    text.extend_from_slice(buffer.format(value.width()).as_bytes())?;
    text.extend_from_slice(b"'b")?;
    let mut at = value.width();
    'bits: while at > 0 {
        at -= 1;
        text.push(digit(value.bit(at)))?;
    }
    Ok(())
}

// A number behind a blank.
fn push_next(text: &mut Vec<u8>, n: usize) -> Result<(), AllocError>
    ensures { OnOk result (text.new.items ≡ text.old.items ++ next n) }
{
    let mut buffer = Buffer::new();
    text.push(b' ')?;
    text.extend_from_slice(buffer.format(n).as_bytes())?;
    Ok(())
}

fn push_width(text: &mut Vec<u8>, width: u8) -> Result<(), AllocError>
    ensures { OnOk result (text.new.items ≡ text.old.items ++ next width) }
{
    push_next(text, usize::from(width))
}

fn push_node(text: &mut Vec<u8>, node: Node) -> Result<(), AllocError>
    ensures { OnOk result (text.new.items ≡ text.old.items ++ next node) }
{
    push_next(text, node.index())
}

// `WIRE[LO+:W]`
fn push_seg(text: &mut Vec<u8>, seg: Seg) -> Result<(), AllocError>
    ensures { OnOk result (text.new.items ≡ text.old.items ++ seg_text seg) }
{
    let mut buffer = Buffer::new();
    text.extend_from_slice(buffer.format(seg.wire).as_bytes())?;
    text.push(b'[')?;
    text.extend_from_slice(buffer.format(seg.lo).as_bytes())?;
    text.extend_from_slice(b"+:")?;
    text.extend_from_slice(buffer.format(seg.width).as_bytes())?;
    text.push(b']')?;
    Ok(())
}

fn flag(on: bool) -> u8
    ensures { result ≡ t.flag on }
{
    if on { b'1' } else { b'0' }
}

// What the types of EACH and ADD say.
fn numbers_fit(each: u8, add: i64)
    ensures each { each < 256 }
    ensures add { IsTrue (is_long add) }
{
    // For the proof: recalls what the type promises of it.
    let _ = each;
    let _ = add;
}

// `S N EACH ADD W`
fn push_spot(text: &mut Vec<u8>, spot: Spot) -> Result<(), AllocError>
    ensures text { OnOk result (text.new.items ≡ text.old.items ++ spot_text spot) }
    ensures fits { OnOk result (FitsSpot spot) }
{
    numbers_fit(spot.each, spot.add);
    let mut buffer = Buffer::new();
    text.push(flag(spot.signed))?;
    text.push(b' ')?;
    text.push(flag(spot.negate))?;
    text.push(b' ')?;
    text.extend_from_slice(buffer.format(spot.each).as_bytes())?;
    text.push(b' ')?;
    text.extend_from_slice(buffer.format(spot.add).as_bytes())?;
    push_width(text, spot.width)
}

/// The name of an operator on one vector.
pub fn unary_name(op: Un) -> &'static [u8]
    ensures { result.now ≡ t.unary_name op }
{
    match op {
        Un::Unfloat => b"unfloat",
        Un::Not => b"not",
        Un::Neg => b"neg",
        Un::RedAnd => b"red_and",
        Un::RedOr => b"red_or",
        Un::RedXor => b"red_xor",
        Un::Truth => b"truth",
    }
}

/// The name of an operator on two vectors.
pub fn binary_name(op: Bin) -> &'static [u8]
    ensures { result.now ≡ t.binary_name op }
{
    match op {
        Bin::And => b"and",
        Bin::Or => b"or",
        Bin::Xor => b"xor",
        Bin::Eq => b"eq",
        Bin::Lt => b"lt",
        Bin::Slt => b"slt",
        Bin::Add => b"add",
        Bin::Sub => b"sub",
        Bin::Mul => b"mul",
        Bin::Div => b"div",
        Bin::Rem => b"rem",
        Bin::Sdiv => b"sdiv",
        Bin::Srem => b"srem",
        Bin::Res => b"res",
        Bin::Shl => b"shl",
        Bin::Shr => b"shr",
        Bin::Sar => b"sar",
        Bin::Concat => b"concat",
    }
}

// `now WIRE` or `prev WIRE`
fn push_name(text: &mut Vec<u8>, name: VarName) -> Result<(), AllocError>
    requires { IsTrue (name_has_form name) }
    ensures { OnOk result (text.new.items ≡ text.old.items ++ name_text name) }
{
    let mut buffer = Buffer::new();
    match name {
        VarName::Now(wire) => {
            text.extend_from_slice(b"now ")?;
            text.extend_from_slice(buffer.format(wire).as_bytes())?;
        }
        VarName::Prev(wire) => {
            text.extend_from_slice(b"prev ")?;
            text.extend_from_slice(buffer.format(wire).as_bytes())?;
        }
        _ => {}
    }
    Ok(())
}

// LHS: segments joined by commas.
fn push_lhs(text: &mut Vec<u8>, segs: &[Seg]) -> Result<(), AllocError>
    ensures { OnOk result (text.new.items ≡ text.old.items ++ lhs_text segs.now) }
{
    if let [first, rest @ ..] = segs {
        push_seg(text, *first)?;
        push_more(text, rest)?;
    }
    Ok(())
}

// Segments, each behind a comma.
fn push_more(text: &mut Vec<u8>, segs: &[Seg]) -> Result<(), AllocError>
    ensures { OnOk result (text.new.items ≡ text.old.items ++ flat_map (λ s. 44 ∷ seg_text s) segs.now) }
{
    'segs: for seg in segs {
        text.push(b',')?;
        push_seg(text, *seg)?;
    }
    Ok(())
}

// `const VALUE`
fn push_const(text: &mut Vec<u8>, value: &Four) -> Result<(), AllocError>
    ensures { OnOk result (text.new.items ≡ text.old.items ++ (codes "const " ++ value_text value.now)) }
{
    text.extend_from_slice(b"const ")?;
    push_value(text, value)
}

// `var now WIRE W` or `var prev WIRE W`
fn push_var(text: &mut Vec<u8>, name: VarName, width: u8) -> Result<(), AllocError>
    requires { IsTrue (name_has_form name) }
    ensures { OnOk result (text.new.items ≡ text.old.items ++ (codes "var " ++ (name_text name ++ next width))) }
{
    text.extend_from_slice(b"var ")?;
    push_name(text, name)?;
    push_width(text, width)
}

// A word and a node.
fn push_one(text: &mut Vec<u8>, word: &[u8], a: Node) -> Result<(), AllocError>
    ensures { OnOk result (text.new.items ≡ text.old.items ++ (word.now ++ next a)) }
{
    text.extend_from_slice(word)?;
    push_node(text, a)
}

// A word and two nodes.
fn push_two(text: &mut Vec<u8>, word: &[u8], a: Node, b: Node) -> Result<(), AllocError>
    ensures { OnOk result (text.new.items ≡ text.old.items ++ (word.now ++ (next a ++ next b))) }
{
    push_one(text, word, a)?;
    push_node(text, b)
}

// A word and three nodes.
fn push_three(text: &mut Vec<u8>, word: &[u8], c: Node, a: Node, b: Node) -> Result<(), AllocError>
    ensures { OnOk result (text.new.items ≡ text.old.items ++ (word.now ++ (next c ++ (next a ++ next b)))) }
{
    push_two(text, word, c, a)?;
    push_node(text, b)
}

// A word, a node and a width.
fn push_sized(text: &mut Vec<u8>, word: &[u8], a: Node, width: u8) -> Result<(), AllocError>
    ensures { OnOk result (text.new.items ≡ text.old.items ++ (word.now ++ (next a ++ next width))) }
{
    push_one(text, word, a)?;
    push_width(text, width)
}

// `slice A LO W`
fn push_slice(text: &mut Vec<u8>, of: Node, lo: u8, width: u8) -> Result<(), AllocError>
    ensures { OnOk result (text.new.items ≡ text.old.items ++ (codes "slice" ++ (next of ++ (next lo ++ next width)))) }
{
    push_sized(text, b"slice", of, lo)?;
    push_width(text, width)
}

// `A B S N EACH ADD W` behind a word.
fn push_spotted(
    text: &mut Vec<u8>,
    word: &[u8],
    of: Node,
    at: Node,
    spot: Spot,
) -> Result<(), AllocError>
    ensures text { OnOk result (text.new.items
        ≡ text.old.items ++ (word.now ++ (next of ++ (next at ++ (codes " " ++ spot_text spot))))) }
    ensures fits { OnOk result (FitsSpot spot) }
{
    push_two(text, word, of, at)?;
    text.push(b' ')?;
    push_spot(text, spot)
}

// `dyn_put A B S N EACH ADD W C`
fn push_put(text: &mut Vec<u8>, of: Node, at: Node, spot: Spot, put: Node) -> Result<(), AllocError>
    ensures text { OnOk result (text.new.items
        ≡ text.old.items ++ (codes "dyn_put" ++ (next of ++ (next at ++ (codes " " ++ (spot_text spot ++ next put)))))) }
    ensures fits { OnOk result (FitsSpot spot) }
{
    push_spotted(text, b"dyn_put", of, at, spot)?;
    push_node(text, put)
}

// SHAPE, of a node whose children have these numbers in the text.
#[tactic(auto, unfolding(crate::specs::Lines::shape_text))]
fn push_shape(text: &mut Vec<u8>, shape: &Shape) -> Result<(), AllocError>
    requires { IsTrue (has_form shape.now) }
    ensures text { OnOk result (text.new.items ≡ text.old.items ++ shape_text shape.now) }
    ensures fits { OnOk result (HasSpot shape.now) }
{
    match shape {
        Shape::Const(value) => push_const(text, value),
        Shape::Var(name, width) => push_var(text, *name, *width),
        Shape::Unary(op, a) => push_one(text, unary_name(*op), *a),
        Shape::Binary(op, a, b) => push_two(text, binary_name(*op), *a, *b),
        Shape::Cond(c, a, b) => push_three(text, b"cond", *c, *a, *b),
        Shape::Pick(c, a, b) => push_three(text, b"pick", *c, *a, *b),
        Shape::Slice { of, lo, width } => push_slice(text, *of, *lo, *width),
        Shape::Zext(a, width) => push_sized(text, b"zext", *a, *width),
        Shape::Sext(a, width) => push_sized(text, b"sext", *a, *width),
        Shape::DynSlice { of, at, spot } => push_spotted(text, b"dyn_slice", *of, *at, *spot),
        Shape::DynPut { of, at, spot, put } => push_put(text, *of, *at, *spot, *put),
    }
}

/// Puts `wire W in PATH` or `wire W net PATH` behind a text.
pub fn push_wire(text: &mut Vec<u8>, signal: &Signal) -> Result<(), AllocError>
    ensures { OnOk result (text.new.items ≡ text.old.items ++ ended (wire_line signal.now)) }
{
    let mut buffer = Buffer::new();
    text.extend_from_slice(b"wire ")?;
    text.extend_from_slice(buffer.format(signal.width).as_bytes())?;
    text.extend_from_slice(kind(signal.input))?;
    text.extend_from_slice(signal.path.bytes())?;
    text.push(b'\n')?;
    Ok(())
}

fn kind(input: bool) -> &'static [u8]
    ensures { result.now ≡ t.kind_text input }
{
    if input { b" in " } else { b" net " }
}

/// Puts `join LHS = LHS` behind a text.
pub fn push_join(text: &mut Vec<u8>, join: &Join) -> Result<(), AllocError>
    ensures { OnOk result (text.new.items ≡ text.old.items ++ ended (join_line join.now)) }
{
    text.extend_from_slice(b"join ")?;
    push_lhs(text, join.child.segs())?;
    text.extend_from_slice(b" = ")?;
    push_lhs(text, join.parent.segs())?;
    text.push(b'\n')?;
    Ok(())
}

/// Puts `node SHAPE` behind a text, for a shape whose children have these numbers in it.
pub fn push_line(text: &mut Vec<u8>, shape: &Shape) -> Result<(), AllocError>
    requires { IsTrue (has_form shape.now) }
    ensures text { OnOk result (text.new.items ≡ text.old.items ++ ended (node_line shape.now)) }
    ensures fits { OnOk result (HasSpot shape.now) }
{
    text.extend_from_slice(b"node ")?;
    push_shape(text, shape)?;
    text.push(b'\n')?;
    Ok(())
}

/// Puts `drive LHS = K` behind a text.
pub fn push_drive(text: &mut Vec<u8>, target: &Lhs, value: usize) -> Result<(), AllocError>
    ensures { OnOk result (text.new.items ≡ text.old.items ++ ended (drive_line (record { target = target.now; value = value }))) }
{
    let mut buffer = Buffer::new();
    text.extend_from_slice(b"drive ")?;
    push_lhs(text, target.segs())?;
    text.extend_from_slice(b" = ")?;
    text.extend_from_slice(buffer.format(value).as_bytes())?;
    text.push(b'\n')?;
    Ok(())
}
