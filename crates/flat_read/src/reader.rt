//! Holds what the lines so far tell, and takes one line more.
//!
//! Nodes of a text may be repeated, and those of a graph may not, so each node of the text has a number in the graph, and shapes are
//! put in over these numbers. Bits are joined one join after the other, since a bit may not be joined twice.

ghost use Rattle.std.specs.Prelude.{◌≡◌, ◌↔◌, ℕ, ◌+◌, ◌^◌, Err, ◌<◌, ◌≤◌, ◌++◌, ◌∷◌, List, [], None, Some, length, codes, All, IfOk, IfSome, IfNone, OnOk, IsTrue, slice_index};
ghost use Rattle.lhs_alias.specs.Joined.{Stands, widths_of};
ghost use Rattle.svex_shape.specs.Shapes.{ChildrenBelow, FitsWidths, width_at};
ghost use Rattle.svex_arena.specs.Arenas.{IsArena, Interned, Extends};
ghost use Rattle.svex_arena.specs.Substs.{renamed};
ghost use Rattle.sv_outside.specs.declared.text.Signal.{Signal};
ghost use Rattle.svex_shape.specs.declared.shape.Shape.{Shape as AShape};
ghost use Rattle.driver_resolve.specs.declared.driver.Driver.{Driver as ADriver};
ghost use Rattle.flat_net.specs.declared.flat.Flat.{Flat as Design};
ghost use Rattle.flat_net.specs.declared.flat.Join.{Join as AJoin};
ghost use Rattle.flat_net.specs.Flats.{IsSignal, IsJoin, links_of};
ghost use Rattle.flat_text.specs.Lines.{ended, shape_text};
ghost use Rattle.flat_text.specs.FlatTexts.{HasSpot, BreaksAt};
ghost use Rattle.flat_lines.specs.Items.{a_wire, a_join, a_node, a_drive};
ghost use Rattle.lhs_alias.specs.Pairs.{HaveOwnChildren};
ghost use Rattle.flat_lines.specs.Fits.{FitsJoin, FitsShape, FitsDrive, wire_words, join_words, drive_words};
ghost use Rattle.flat_read.specs.States.{HasMade, IsLaidFor, IsReader, Holds, Judged, Added, CannotCome, Took, Refused, TookLine, RefusedLine, HasReadAll, nothing_shown};

use crate::cut::cut;
use crate::error::FlatErr;
use crate::tests::{has_children, is_driver, is_join, names_wire};
use driver_resolve::Driver;
use flat_lines::{drive, join, node, wire};
use flat_net::{Flat, Join};
use flat_words::Words;
use items::Items;
use lhs_alias::Joins;
use std::alloc::{AllocError, Global};
use sv_outside::Signal;
use svex_arena::{Arena, rename};
use svex_shape::{Node, Shape};

/// What the lines so far tell.
pub struct Reader {
    alloc: Global,
    wires: Items<Signal>,
    widths: Vec<u8>,
    joins: Items<Join>,
    made: Option<Joins>,
    arena: Arena,
    numbers: Vec<Node>,
    drivers: Items<Driver>,
}

impl Drop for Reader {
    fn drop(self) {
        let Reader {
            alloc: _,
            wires: _,
            widths: _,
            joins: _,
            made: _,
            arena: _,
            numbers: _,
            drivers: _,
        } = self;
    }
}

// The joins made so far, or none yet.
fn laid(alloc: Global, made: Option<Joins>, widths: &[u8]) -> Result<Joins, AllocError>
    requires wide { All (λ w. (1 ≤ w) × (w ≤ 128)) widths.now }
    requires laid { IsLaidFor made widths.now }
    ensures widths { IfOk result (λ j. widths_of j ≡ widths.now) }
    ensures stands { (joins : List AJoin) → HasMade made widths.now joins → IfOk result (λ j. Stands j (links_of joins)) }
{
    match made {
        Some(made) => Ok(made),
        None => Joins::new(alloc, widths),
    }
}

// The node of a shape of the text, whose children have numbers in the graph; None where the shape does not fit.
fn put_in(
    alloc: Global,
    arena: &mut Arena,
    numbers: &[Node],
    shape: &Shape,
) -> Result<Option<Node>, AllocError>
    requires { ChildrenBelow (length numbers.now) shape.now }
    ensures some { IfOk result (λ o. IfSome o (λ n.
        Interned arena.old (renamed (λ k. slice_index numbers.now k) shape.now) arena.new n)) }
    ensures fits { IfOk result (λ o. IfSome o (λ n. FitsWidths (width_at arena.old) (renamed (λ k. slice_index numbers.now k) shape.now))) }
    ensures none { IfOk result (λ o. IfNone o
        (ChildrenBelow (length arena.old) (renamed (λ k. slice_index numbers.now k) shape.now)
        → FitsWidths (width_at arena.old) (renamed (λ k. slice_index numbers.now k) shape.now) → ⊥)) }
    ensures extends { Extends arena.old arena.new }
    ensures arena { IfOk result (λ o. IsArena arena.new) }
{
    // For the proof: recalls what the type promises of it.
    let _ = arena.len();
    let renamed = rename(shape, numbers);
    if !arena.fits(&renamed) {
        return Ok(None);
    }
    let node = arena.intern(alloc, renamed)?;
    Ok(Some(node))
}

fn is_end(line: &[u8]) -> bool
    ensures { IsTrue result ↔ (line.now ≡ codes "end") }
{
    line == b"end".as_slice()
}

impl Reader {
    ghost use Rattle.flat_read.specs.declared.error.FlatErr.TheVariants.{BadLine};

    /// A reader that has read nothing behind the first line.
    pub fn new(alloc: Global) -> Reader
        ensures reader { IsReader result }
        ensures holds { Holds (record { arena = []; wires = []; drivers = []; joins = [] }) result }
    {
        let arena = Arena::new(alloc);
        // For the proof: recalls what the type promises of it.
        let _ = arena.len();
        Reader {
            alloc,
            wires: Items::new(alloc),
            widths: Vec::new(alloc),
            joins: Items::new(alloc),
            made: None,
            arena,
            numbers: Vec::new(alloc),
            drivers: Items::new(alloc),
        }
    }

    // Whether a wire may come next.
    fn takes_wires(&self) -> bool
        ensures { IsTrue result ↔ ((self.now.made ≡ None) × ((self.now.numbers.items ≡ []) × (self.now.drivers ≡ []))) }
    {
        self.made.is_none() && self.numbers.is_empty() && self.drivers.is_empty()
    }

    // Whether a join may come next.
    fn takes_joins(&self) -> bool
        ensures { IsTrue result ↔ ((self.now.numbers.items ≡ []) × (self.now.drivers ≡ [])) }
    {
        self.numbers.is_empty() && self.drivers.is_empty()
    }

    // Takes a wire, if it may come next.
    fn add_wire(&mut self, wire: Signal) -> Result<bool, AllocError>
        requires reader { IsReader self.old }
        requires wire { IsSignal wire }
        ensures reader { OnOk result (IsReader self.new) }
        ensures judged { (shown : Design) → Holds shown self.old → IfOk result (λ b. Judged b
            (Added shown (a_wire wire) self.new) (CannotCome shown (a_wire wire))) }
    {
        if !self.takes_wires() {
            return Ok(false);
        }
        self.widths.push(wire.width)?;
        self.wires.push(wire)?;
        Ok(true)
    }

    // Joins bits, and says whether none of the child's was joined before.
    fn unite(&mut self, join: &Join) -> Result<bool, AllocError>
        requires reader { IsReader self.old }
        requires join { IsJoin self.old.widths.items join.now }
        ensures same { OnOk result (self.new ≡ record self.old { made = self.new.made }) }
        ensures laid { OnOk result (IsLaidFor self.new.made self.old.widths.items) }
        ensures made { (joins : List AJoin) → HasMade self.old.made self.old.widths.items joins → IfOk result (λ b. Judged b
            (HasMade self.new.made self.old.widths.items (joins ++ join.now ∷ []))
            (¬ HaveOwnChildren (links_of (joins ++ join.now ∷ [])))) }
    {
        let mut made = laid(self.alloc, self.made.take(), &self.widths)?;
        let free = made.join(&join.child, &join.parent).is_ok();
        self.made = Some(made);
        Ok(free)
    }

    // Takes a join, if it may come next.
    fn add_join(&mut self, join: Join) -> Result<bool, AllocError>
        requires reader { IsReader self.old }
        ensures reader { OnOk result (IsReader self.new) }
        ensures judged { (shown : Design) → Holds shown self.old → IfOk result (λ b. Judged b
            (Added shown (a_join join) self.new) (CannotCome shown (a_join join))) }
    {
        if !self.takes_joins() {
            return Ok(false);
        }
        if !is_join(&self.widths, &join) {
            return Ok(false);
        }
        if !self.unite(&join)? {
            return Ok(false);
        }
        self.joins.push(join)?;
        Ok(true)
    }

    // Takes a node, if it may come next.
    fn add_node(&mut self, shape: &Shape) -> Result<bool, AllocError>
        requires { IsReader self.old }
        ensures reader { OnOk result (IsReader self.new) }
        ensures judged { (shown : Design) → Holds shown self.old → HasSpot shape.now → IfOk result (λ b. Judged b
            (Added shown (a_node shape.now) self.new) (CannotCome shown (a_node shape.now))) }
    {
        if !self.drivers.is_empty() {
            return Ok(false);
        }
        if !has_children(shape, self.numbers.len()) {
            return Ok(false);
        }
        if !names_wire(&self.widths, shape) {
            return Ok(false);
        }
        match put_in(self.alloc, &mut self.arena, &self.numbers, shape)? {
            Some(node) => {
                self.numbers.push(node)?;
                Ok(true)
            }
            None => Ok(false),
        }
    }

    // Takes a driver, if it may come next.
    fn add_driver(&mut self, driver: Driver) -> Result<bool, AllocError>
        requires { IsReader self.old }
        ensures reader { OnOk result (IsReader self.new) }
        ensures judged { (shown : Design) → Holds shown self.old → IfOk result (λ b. Judged b
            (Added shown (a_drive driver) self.new) (CannotCome shown (a_drive driver))) }
    {
        if !is_driver(&self.widths, &self.arena, &self.numbers, &driver) {
            return Ok(false);
        }
        let mut driver = driver;
        driver.value = self.numbers[driver.value.index()];
        self.drivers.push(driver)?;
        Ok(true)
    }

    // Takes `W in PATH` or `W net PATH`.
    fn wire(&mut self, words: &mut Words) -> Result<bool, AllocError>
        requires { IsReader self.old }
        ensures reader { OnOk result (IsReader self.new) }
        ensures judged { (shown : Design) → Holds shown self.old → IfOk result (λ b. Judged b
            (Took Signal a_wire IsSignal wire_words shown words.old.rest.now self.new)
            (Refused Signal a_wire IsSignal wire_words shown words.old.rest.now)) }
    {
        match wire(self.alloc, words)? {
            Some(wire) => self.add_wire(wire),
            None => Ok(false),
        }
    }

    // Takes `LHS = LHS`.
    fn join(&mut self, words: &mut Words) -> Result<bool, AllocError>
        requires { IsReader self.old }
        ensures reader { OnOk result (IsReader self.new) }
        ensures judged { (shown : Design) → Holds shown self.old → IfOk result (λ b. Judged b
            (Took AJoin a_join FitsJoin join_words shown words.old.rest.now self.new)
            (Refused AJoin a_join FitsJoin join_words shown words.old.rest.now)) }
    {
        match join(self.alloc, words)? {
            Some(join) => self.add_join(join),
            None => Ok(false),
        }
    }

    // Takes SHAPE.
    fn node(&mut self, words: &mut Words) -> Result<bool, AllocError>
        requires { IsReader self.old }
        ensures reader { OnOk result (IsReader self.new) }
        ensures judged { (shown : Design) → Holds shown self.old → IfOk result (λ b. Judged b
            (Took AShape a_node FitsShape shape_text shown words.old.rest.now self.new)
            (Refused AShape a_node FitsShape shape_text shown words.old.rest.now)) }
    {
        match node(words) {
            Some(shape) => self.add_node(&shape),
            None => Ok(false),
        }
    }

    // Takes `LHS = K`.
    fn drive(&mut self, words: &mut Words) -> Result<bool, AllocError>
        requires { IsReader self.old }
        ensures reader { OnOk result (IsReader self.new) }
        ensures judged { (shown : Design) → Holds shown self.old → IfOk result (λ b. Judged b
            (Took ADriver a_drive FitsDrive drive_words shown words.old.rest.now self.new)
            (Refused ADriver a_drive FitsDrive drive_words shown words.old.rest.now)) }
    {
        match drive(self.alloc, words)? {
            Some(driver) => self.add_driver(driver),
            None => Ok(false),
        }
    }

    // Takes a line that is not the last, if it may come next, and says so.
    fn line(&mut self, line: &[u8]) -> Result<bool, AllocError>
        requires { IsReader self.old }
        ensures reader { OnOk result (IsReader self.new) }
        ensures judged { (shown : Design) → Holds shown self.old → IfOk result (λ b. Judged b
            (TookLine shown line.now self.new) (RefusedLine shown line.now)) }
    {
        let mut words = Words { rest: line };
        if words.pass(b"wire ") {
            return self.wire(&mut words);
        }
        if words.pass(b"join ") {
            return self.join(&mut words);
        }
        if words.pass(b"node ") {
            return self.node(&mut words);
        }
        if words.pass(b"drive ") {
            return self.drive(&mut words);
        }
        Ok(false)
    }

    /// Reads the lines behind the first, up to the end of the text.
    pub fn lines(&mut self, text: &[u8]) -> Result<(), FlatErr>
        requires reader { IsReader self.old }
        requires holds { Holds nothing_shown self.old }
        requires long { length text.now + 3 < 2 ^ 64 }
        ensures all { OnOk result (HasReadAll (ended (codes "flat 1") ++ text.now) self.new) }
        ensures line { (n : ℕ) → result ≡ Err (BadLine n) → BreaksAt (ended (codes "flat 1") ++ text.now) n }
    {
        let mut rest = text;
        let mut read = 1;
        'lines: while let Some((line, more)) = cut(rest) {
            if is_end(line) {
                return if more.is_empty() {
                    Ok(())
                } else {
                    Err(FlatErr::BadLine(read + 2))
                };
            }
            if !self.line(line)? {
                return Err(FlatErr::BadLine(read + 1));
            }
            read += 1;
            rest = more;
        }
        Err(FlatErr::BadLine(read + 1))
    }

    /// The design that the lines tell.
    pub fn into_flat(self) -> Flat
        ensures arena { result.arena ≡ self.arena }
        ensures wires { result.wires ≡ self.wires }
        ensures drivers { result.drivers ≡ self.drivers }
        ensures joins { result.joins ≡ self.joins }
    {
        let Reader {
            alloc: _,
            wires,
            widths,
            joins,
            made,
            arena,
            numbers,
            drivers,
        } = self;
        drop(widths);
        drop(made);
        drop(numbers);
        Flat {
            arena,
            wires,
            drivers,
            joins,
        }
    }
}
