//! What stands in a line behind the word that says its kind. Each call reads to the end of the line, and answers `None` exactly where
//! no wire, join, node or driver of numbers that fit words has this text.

ghost use Rattle.std.specs.Prelude.{◌≡◌, length, codes, IfOk};
ghost use Rattle.flat_words.specs.Readers as w;
ghost use Rattle.flat_words.specs.Readers.{joined};
ghost use Rattle.flat_lines.specs.Items as spec;
ghost use Rattle.flat_lines.specs.Items.{put_before};

use crate::shapes::shape;
use driver_resolve::Driver;
use flat_net::Join;
use flat_words::Words;
use lhs_alias::{Lhs, Seg};
use std::alloc::{AllocError, Global};
use sv_outside::{Name, Signal};
use svex_shape::{Node, Shape};

#[tactic(auto, unfolding(flat_words::specs::Readers::before))]
fn lo(words: &mut Words) -> Option<u8>
    ensures { joined result words.new.rest.now ≡ w.before (codes "[") w.byte words.old.rest.now }
{
    if words.pass(b"[") { words.byte() } else { None }
}

#[tactic(auto, unfolding(flat_words::specs::Readers::before))]
fn width(words: &mut Words) -> Option<u8>
    ensures { joined result words.new.rest.now ≡ w.before (codes "+:") w.byte words.old.rest.now }
{
    if words.pass(b"+:") {
        words.byte()
    } else {
        None
    }
}

#[tactic(auto, unfolding(flat_words::specs::Readers::closed))]
fn closed_width(words: &mut Words) -> Option<u8>
    ensures { joined result words.new.rest.now ≡ w.closed (λ r. w.before (codes "+:") w.byte r) (codes "]") words.old.rest.now }
{
    let width = width(words)?;
    if words.pass(b"]") { Some(width) } else { None }
}

// `WIRE[LO+:W]`
#[tactic(auto, unfolding(crate::specs::Items::seg, flat_words::specs::Readers::made, flat_words::specs::Readers::both))]
fn seg(words: &mut Words) -> Option<Seg>
    ensures { joined result words.new.rest.now ≡ spec.seg words.old.rest.now }
{
    let wire = words.number()?;
    let lo = lo(words)?;
    let width = closed_width(words)?;
    Some(Seg { wire, lo, width })
}

// Puts segments, each behind a comma, behind others; and says whether all are read.
fn more(words: &mut Words, segs: &mut Vec<Seg>) -> Result<bool, AllocError>
    ensures { IfOk result (λ read. spec.given read segs.new.items words.new.rest.now
        ≡ put_before segs.old.items (spec.segs (length words.old.rest.now) words.old.rest.now)) }
{
    'segs: while words.pass(b",") {
        match seg(words) {
            Some(seg) => segs.push(seg)?,
            None => return Ok(false),
        }
    }
    Ok(true)
}

// LHS
#[tactic(auto, unfolding(crate::specs::Items::lhs))]
fn lhs(alloc: Global, words: &mut Words) -> Result<Option<Lhs>, AllocError>
    ensures { IfOk result (λ o. joined o words.new.rest.now ≡ spec.lhs words.old.rest.now) }
{
    let Some(first) = seg(words) else {
        return Ok(None);
    };
    let mut segs = Vec::new(alloc);
    segs.push(first)?;
    if more(words, &mut segs)? {
        Ok(Some(Lhs::from_vec(segs)))
    } else {
        Ok(None)
    }
}

// LHS behind ` = `
#[tactic(auto, unfolding(flat_words::specs::Readers::before))]
fn from_lhs(alloc: Global, words: &mut Words) -> Result<Option<Lhs>, AllocError>
    ensures { IfOk result (λ o. joined o words.new.rest.now ≡ w.before (codes " = ") spec.lhs words.old.rest.now) }
{
    if words.pass(b" = ") {
        lhs(alloc, words)
    } else {
        Ok(None)
    }
}

// A number behind ` = `
#[tactic(auto, unfolding(flat_words::specs::Readers::before))]
fn from_number(words: &mut Words) -> Option<usize>
    ensures { joined result words.new.rest.now ≡ w.before (codes " = ") w.number words.old.rest.now }
{
    if words.pass(b" = ") {
        words.number()
    } else {
        None
    }
}

/// SHAPE, whose children have these numbers in the text.
#[tactic(auto, unfolding(crate::specs::Items::node, flat_words::specs::Readers::whole))]
pub fn node(words: &mut Words) -> Option<Shape>
    ensures { result ≡ spec.node words.old.rest.now }
{
    let shape = shape(words)?;
    if words.rest.is_empty() {
        Some(shape)
    } else {
        None
    }
}

/// `LHS = LHS`
#[tactic(auto, unfolding(crate::specs::Items::join, flat_words::specs::Readers::whole, flat_words::specs::Readers::made, flat_words::specs::Readers::both))]
pub fn join(alloc: Global, words: &mut Words) -> Result<Option<Join>, AllocError>
    ensures { IfOk result (λ o. o ≡ spec.join words.old.rest.now) }
{
    let Some(child) = lhs(alloc, words)? else {
        return Ok(None);
    };
    let Some(parent) = from_lhs(alloc, words)? else {
        return Ok(None);
    };
    if words.rest.is_empty() {
        Ok(Some(Join { child, parent }))
    } else {
        Ok(None)
    }
}

/// `LHS = K`, whose node has this number in the text.
#[tactic(auto, unfolding(crate::specs::Items::drive, flat_words::specs::Readers::whole, flat_words::specs::Readers::made, flat_words::specs::Readers::both))]
pub fn drive(alloc: Global, words: &mut Words) -> Result<Option<Driver>, AllocError>
    ensures { IfOk result (λ o. o ≡ spec.drive words.old.rest.now) }
{
    let Some(target) = lhs(alloc, words)? else {
        return Ok(None);
    };
    let Some(number) = from_number(words) else {
        return Ok(None);
    };
    if words.rest.is_empty() {
        Ok(Some(Driver {
            target,
            value: Node::new(number),
        }))
    } else {
        Ok(None)
    }
}

fn is_path(text: &[u8]) -> bool
    ensures { result ≡ spec.is_path text.now }
{
    !text.is_empty() && all_printed(text)
}

fn all_printed(text: &[u8]) -> bool
    ensures { result ≡ spec.all_printed text.now }
{
    text.iter().all(|b| 33 <= *b && *b <= 126)
}

// A wire so wide, whose path is all that is left.
fn named(alloc: Global, path: &[u8], width: u8, input: bool) -> Result<Option<Signal>, AllocError>
    ensures { IfOk result (λ o. o ≡ spec.path_by (spec.is_path path.now) width input path.now) }
{
    if !is_path(path) {
        return Ok(None);
    }
    let path = Name::new(alloc, path)?;
    Ok(Some(Signal { path, width, input }))
}

/// `W in PATH` or `W net PATH`
#[tactic(auto, unfolding(crate::specs::Items::wire, flat_words::specs::Readers::where_))]
pub fn wire(alloc: Global, words: &mut Words) -> Result<Option<Signal>, AllocError>
    ensures { IfOk result (λ o. o ≡ spec.wire words.old.rest.now) }
{
    let Some(width) = words.byte() else {
        return Ok(None);
    };
    if width == 0 || width > 128 {
        return Ok(None);
    }
    if words.pass(b" in ") {
        return named(alloc, words.rest, width, true);
    }
    if words.pass(b" net ") {
        return named(alloc, words.rest, width, false);
    }
    Ok(None)
}
