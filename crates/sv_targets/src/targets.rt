// Targets of assignments: names with their selects, and braces of these (IEEE 1800-2017, 10.3.2, 10.4 and 11.5.1). Targets hold
// targets, so two functions are a cycle, and what judges a name or a width stands outside of it. How an index is judged is a
// parameter, since a block may select by any value, and a continuous assignment by constants alone.
ghost use Rattle.std.specs.Prelude.{◌≡◌, Some, List, [], ◌∷◌, ◌++◌, map, min, Ok};
ghost use Rattle.std.specs.Option.{option_copied};
ghost use Rattle.sv_names.specs.Kinds.{layout_is, what_is, IsSound, WhatIsSound};
ghost use Rattle.sv_names.specs.Names.{names_are};
ghost use Rattle.sv_typing.specs.Picks.{rule_faults, rule_scope};
ghost use Rattle.sv_typing.specs.Roots.{JudgesChain};
ghost use Rattle.sv_meaning.specs.Faults.{Faults, or_then};
ghost use Rattle.sv_meaning.specs.Layouts as m;
ghost use Rattle.sv_meaning.specs.Meanings.{Meaning, Step, chain_faults};
ghost use Rattle.sv_meaning.specs.Targets as t;
ghost use Rattle.sv_meaning.specs.Values.{step};
ghost use Rattle.sv_targets.specs.Targets.{JudgesTarget, JudgesTargets, AreNarrow, all_faults, all_targets, width_of_all};

use items::Items;
use std::alloc::Global;
use sv_const::select_chain;
use sv_names::{Layout, Names, What};
use sv_outside::{Place, TextErr, refusals};
use sv_tree::{Lvalue, Select, Word};
use sv_typed::Pick;
use sv_typing::{Chain, IndexRule, refusal};

/// A net or variable with its selects as parts of its bits.
pub struct TypedTarget {
    /// The number of the wire.
    pub wire: usize,
    /// How many bits the wire has, 1 to 128.
    pub wire_width: u8,
    /// A part of the bits of the one before, for each select.
    pub picks: Items<Pick>,
    /// How many bits the last part has.
    pub width: u8,
}

impl Drop for TypedTarget {
    fn drop(self) {
        let TypedTarget {
            wire: _,
            wire_width: _,
            picks: _,
            width: _,
        } = self;
    }
}

// A wire with its selects.
fn wire_target(
    wire: usize,
    layout: &Layout,
    chain: Result<Chain, TextErr>,
) -> Result<TypedTarget, TextErr>
    requires { IsSound layout.now }
    ensures { (judge : Meaning → Faults) (steps : List Step) → JudgesChain judge (layout_is layout.now) steps chain → JudgesTarget judge (chain_faults judge (layout_is layout.now) steps) (record { wire = wire; layout = layout_is layout.now; steps = steps }) result }
{
    match chain {
        Ok(Chain { picks, width, .. }) => Ok(TypedTarget {
            wire,
            wire_width: layout.width,
            picks,
            width,
        }),
        Err(why) => Err(why),
    }
}

// What a name stands for with its selects, or E19 at a place.
fn what_target(
    alloc: Global,
    begin: Place,
    word: &Word,
    what: &What,
    selects: &[Select],
    names: &Names<'_>,
    rule: IndexRule,
) -> Result<TypedTarget, TextErr>
    requires { WhatIsSound what.now }
    ensures { JudgesTarget (rule_faults rule) (t.target_faults (rule_faults rule) begin word.now (Some (what_is what.now)) (map (step (rule_scope rule (names_are names.now))) selects.now)) (t.target_of (Some (what_is what.now)) (map (step (rule_scope rule (names_are names.now))) selects.now)) result }
{
    match what {
        What::Wire { number, layout } => wire_target(
            *number,
            layout,
            select_chain(alloc, layout, selects, names, rule),
        ),
        What::Number(_) => Err(TextErr::No(refusal(refusals::BAD_TARGET, begin))),
        What::Kind(_) => Err(TextErr::No(refusal(refusals::BAD_TARGET, begin))),
        What::Chosen { .. } => Err(TextErr::No(refusal(refusals::BAD_TARGET, begin))),
        What::Sampled { .. } => Err(TextErr::No(refusal(refusals::BAD_TARGET, begin))),
        What::Genvar => Err(TextErr::No(refusal(refusals::BAD_TARGET, begin))),
    }
}

/// A name with its selects as a target, or E12, or E19 at a place.
pub(crate) fn named_target(
    alloc: Global,
    begin: Place,
    word: &Word,
    selects: &[Select],
    names: &Names<'_>,
    rule: IndexRule,
) -> Result<TypedTarget, TextErr>
    ensures { JudgesTarget (rule_faults rule) (t.target_faults (rule_faults rule) begin word.now (m.find word.now.text (names_are names.now)) (map (step (rule_scope rule (names_are names.now))) selects.now)) (t.target_of (m.find word.now.text (names_are names.now)) (map (step (rule_scope rule (names_are names.now))) selects.now)) result }
{
    match names.find(word.text.bytes()) {
        Some(what) => what_target(alloc, begin, word, what, selects, names, rule),
        None => Err(TextErr::No(refusal(refusals::UNKNOWN_NAME, word.place))),
    }
}

/// One target.
pub(crate) fn one_target(
    alloc: Global,
    target: Result<TypedTarget, TextErr>,
) -> Result<Items<TypedTarget>, TextErr>
    ensures is { (judge : Meaning → Faults) (f : Faults) (x : t.Target) → JudgesTarget judge f x target → JudgesTargets judge f (x ∷ []) result }
    ensures narrow { (judge : Meaning → Faults) (f : Faults) (x : t.Target) → JudgesTarget judge f x target → AreNarrow result }
{
    let mut all = Items::new(alloc);
    match target {
        Ok(target) => {
            all.push(target)?;
            Ok(all)
        }
        Err(why) => Err(why),
    }
}

// The bits of all targets together, 255 where there are more.
#[tactic(auto, using(crate::proofs::Targeting::width_more, crate::proofs::Targeting::width_end))]
pub(crate) fn width_of_all(all: &[TypedTarget]) -> u8
    ensures { result ≡ min 255 (width_of_all all.now) }
{
    let mut width = 0u8;
    'targets: for target in all {
        width = width.saturating_add(target.width);
    }
    width
}

/// Targets in braces of at most 128 bits together, or E14.
pub(crate) fn braced(
    place: Place,
    all: Result<Items<TypedTarget>, TextErr>,
) -> Result<Items<TypedTarget>, TextErr>
    ensures is { (judge : Meaning → Faults) (f : Faults) (xs : List t.Target) → JudgesTargets judge f xs all → JudgesTargets judge (or_then f (t.wide_target place xs)) xs result }
    ensures narrow { AreNarrow result }
{
    match all {
        Ok(all) => {
            let width = width_of_all(all.as_slice());
            if width >= 1 && width <= 128 {
                Ok(all)
            } else {
                Err(TextErr::No(refusal(refusals::WIDTH, place)))
            }
        }
        Err(why) => Err(why),
    }
}

/// Targets with others behind them.
pub(crate) fn appended(
    all: Items<TypedTarget>,
    more: Result<Items<TypedTarget>, TextErr>,
) -> Result<Items<TypedTarget>, TextErr>
    ensures { (judge : Meaning → Faults) (f g : Faults) (xs ys : List t.Target) → JudgesTargets judge f xs (Ok all) → JudgesTargets judge g ys more → JudgesTargets judge (f ++ g) (xs ++ ys) result }
{
    let more = more?;
    let mut all = all;
    all.append(more)?;
    Ok(all)
}

/// The parts of a target, the most significant first, where each index is judged so; or why it is refused: E12, E14, E19 or
/// E23, or what an index is refused for.
#[cycle(target)]
pub fn typed_targets(
    alloc: Global,
    target: &Lvalue,
    names: &Names<'_>,
    rule: IndexRule,
) -> Result<Items<TypedTarget>, TextErr>
    ensures is { JudgesTargets (rule_faults rule) (t.lvalue_faults (rule_faults rule) (rule_scope rule (names_are names.now)) (names_are names.now) target.now) (t.targets (rule_scope rule (names_are names.now)) (names_are names.now) target.now) result }
    ensures narrow { AreNarrow result }
{
    match target {
        Lvalue::Name(word, selects) => one_target(
            alloc,
            named_target(alloc, word.place, word, selects.as_slice(), names, rule),
        ),
        Lvalue::Concat(place, parts) => braced(
            *place,
            targets_in(alloc, parts.as_slice(), names, rule),
        ),
    }
}

#[cycle(target)]
fn targets_in(
    alloc: Global,
    parts: &[Lvalue],
    names: &Names<'_>,
    rule: IndexRule,
) -> Result<Items<TypedTarget>, TextErr>
    ensures { JudgesTargets (rule_faults rule) (all_faults (rule_faults rule) (rule_scope rule (names_are names.now)) (names_are names.now) parts.now) (all_targets (rule_scope rule (names_are names.now)) (names_are names.now) parts.now) result }
{
    let mut all = Items::new(alloc);
    'parts: for part in parts {
        match appended(all, typed_targets(alloc, part, names, rule)) {
            Ok(more) => all = more,
            Err(why) => return Err(why),
        }
    }
    Ok(all)
}
