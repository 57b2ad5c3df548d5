//! What names stand for at a place of a text: fronts of scopes, the outermost first, and the variables of loops above them. Scopes
//! are lent and only their lengths are kept, so that a place costs no copy of what is declared. Of each scope two lengths count: what
//! is seen of it, nets that are declared behind the place among them, and what is declared above the place, which is what a constant
//! expression sees.
ghost use Rattle.std.specs.Prelude.{◌≡◌, Bool, true, false, [], ◌∷◌, ◌++◌, length, take, OnOk, OnErr, IfSome, MatchOption, option_map};
ghost use Rattle.std.specs.Option.{option_copied};
ghost use Rattle.sv_names.specs.declared.layout.What.TheVariants.{Number};
ghost use Rattle.sv_names.specs.Kinds.{what_is, entries_are, WhatIsSound};
ghost use Rattle.sv_names.specs.Names.{names_are, constants_are, entries_of, stack_of, frames_of, above_of, loops_of, fronts, fronts_above};
ghost use Rattle.sv_meaning.specs.Layouts.{find, last_of};

use crate::{Known, Scope, What};
use std::alloc::{AllocError, Global};
use sv_outside::Name;

/// The first so many names of a scope, and how many of them are declared above the place.
#[derive(Clone, Copy)]
pub struct Frame<'a> {
    scope: &'a Scope,
    len: usize,
    above: usize,
}

/// Fronts of scopes, the outermost first, and the variables of loops above them. Contracts see the one list of all.
pub struct Names<'a> {
    frames: Vec<Frame<'a>>,
    loops: Scope,
}

impl Drop for Names<'_> {
    fn drop(self) {
        let Names {
            frames: _,
            loops: _,
        } = self;
    }
}

impl<'a> Names<'a> {
    /// No names. The key is a digest of the text that those of the loops are read in.
    pub fn new(alloc: Global, key: u128) -> Names<'a>
        ensures frames { stack_of result ≡ [] }
        ensures loops { loops_of result ≡ [] }
    {
        Names {
            frames: Vec::new(alloc),
            loops: Scope::new(alloc, key),
        }
    }

    /// Enters a scope, of which the first `len` names are seen, and the first `above` are declared above the place. Where memory is
    /// out, nothing changes.
    #[tactic(auto, using(crate::proofs::Lookups::one_frame, crate::proofs::Lookups::one_frame_above))]
    pub fn push_scope(
        &mut self,
        scope: &'a Scope,
        len: usize,
        above: usize,
    ) -> Result<(), AllocError>
        ensures frames { OnOk result (frames_of self.new ≡ frames_of self.old ++ take len scope.now) }
        ensures above { OnOk result (above_of self.new ≡ above_of self.old ++ take above scope.now) }
        ensures loops { OnOk result (loops_of self.new ≡ loops_of self.old) }
        ensures err { OnErr result (stack_of self.new ≡ stack_of self.old) }
        ensures kept { OnErr result (loops_of self.new ≡ loops_of self.old) }
    {
        self.frames.push(Frame { scope, len, above })?;
        Ok(())
    }

    /// Enters a loop, whose variable has this value. Where memory is out, nothing changes.
    pub fn push_loop(&mut self, name: Name, value: Known) -> Result<(), AllocError>
        ensures frames { stack_of self.new ≡ stack_of self.old }
        ensures loops { OnOk result (loops_of self.new ≡ loops_of self.old ++ (name, Number value) ∷ []) }
        ensures err { OnErr result (loops_of self.new ≡ loops_of self.old) }
    {
        self.loops.push(name, What::Number(value))
    }

    /// How many loops are entered.
    pub fn loops(&self) -> usize
        ensures { result ≡ length (loops_of self.now) }
    {
        self.loops.len()
    }

    /// Leaves all loops but the first so many.
    pub fn leave_loops(&mut self, count: usize)
        ensures frames { stack_of self.new ≡ stack_of self.old }
        ensures loops { loops_of self.new ≡ take count (loops_of self.old) }
    {
        self.loops.truncate(count);
    }

    /// Leaves the innermost loop, if there is one.
    pub fn pop_loop(&mut self) -> Option<(Name, What)>
        ensures frames { stack_of self.new ≡ stack_of self.old }
        ensures loops { MatchOption result
            ((loops_of self.old ≡ []) × (loops_of self.new ≡ []))
            (λ last. loops_of self.old ≡ loops_of self.new ++ last ∷ []) }
    {
        self.loops.pop()
    }

    /// What a name stands for: the last that was declared under it.
    #[tactic(auto, using(crate::proofs::Lookups::found_above, crate::proofs::Lookups::found_below))]
    pub fn find(&self, name: &[u8]) -> Option<&What>
        ensures is { option_map what_is (option_copied result) ≡ find name.now (names_are self.now) }
        ensures sound { IfSome result (λ what. WhatIsSound what.now) }
    {
        match self.loops.find(name, self.loops.len()) {
            Some(what) => Some(what),
            None => found_in(&self.frames, name),
        }
    }

    /// What a name stands for in a constant expression: the last that was declared under it above the place.
    #[tactic(auto, using(crate::proofs::Lookups::found_above, crate::proofs::Lookups::found_below))]
    pub fn find_above(&self, name: &[u8]) -> Option<&What>
        ensures is { option_map what_is (option_copied result) ≡ find name.now (constants_are self.now) }
        ensures sound { IfSome result (λ what. WhatIsSound what.now) }
    {
        match self.loops.find(name, self.loops.len()) {
            Some(what) => Some(what),
            None => found_above_in(&self.frames, name),
        }
    }
}

// The last declaration of a name in the fronts of scopes.
fn found_in<'a>(frames: &'a [Frame<'a>], name: &[u8]) -> Option<&'a What>
    ensures is { option_map what_is (option_copied result) ≡ last_of name.now (entries_are (fronts frames.now)) }
    ensures sound { IfSome result (λ what. WhatIsSound what.now) }
{
    let mut at = frames.len();
    'frames: while at > 0 {
        at -= 1;
        let frame = frames[at];
        match frame.scope.find(name, frame.len) {
            Some(what) => return Some(what),
            None => {}
        }
    }
    None
}

// The last declaration of a name in the fronts of scopes, above the place.
fn found_above_in<'a>(frames: &'a [Frame<'a>], name: &[u8]) -> Option<&'a What>
    ensures is { option_map what_is (option_copied result) ≡ last_of name.now (entries_are (fronts_above frames.now)) }
    ensures sound { IfSome result (λ what. WhatIsSound what.now) }
{
    let mut at = frames.len();
    'frames: while at > 0 {
        at -= 1;
        let frame = frames[at];
        match frame.scope.find(name, frame.above) {
            Some(what) => return Some(what),
            None => {}
        }
    }
    None
}
