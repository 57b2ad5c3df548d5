// Statements become actions, with names, sizes and targets resolved and loops unrolled (IEEE 1800-2017, 10.4, 12.4, 12.5 and
// 12.7.1). Statements hold statements, so it is one cycle of functions, which only takes trees apart and hands the parts to the
// rules. The count of turns goes through it as a number from one statement to the next, since all loops of a design share one
// limit. The arms of a case statement are gone through twice, for those with labels and for the default, since the default
// comes last wherever it stands.
ghost use Rattle.std.specs.Prelude.{◌≡◌, ℕ, ◌++◌, List, IfOk};
ghost use Rattle.fourvec.specs.declared.Bit.{Bit};
ghost use Rattle.sv_meaning.specs.Layouts.{NamedSignal};
ghost use Rattle.sv_meaning.specs.Deeds.{CaseArm, deed, is_casez};
ghost use Rattle.sv_names.specs.Names.{names_are, stack_of, loops_of};
ghost use Rattle.sv_actions.specs.Texts.{target_signals, other_signals, arm_signals, of_each};
ghost use Rattle.sv_actions.specs.Typing.{JudgesDeed};
ghost use Rattle.sv_actions.specs.Listing.{AreArms, JudgesArms, in_order, all_deeds, else_deed, turn_deed, arm_of, all_arms, rest_of, Within, ActedAims, ArmsAim};

use crate::action::Action;
use crate::arms::{ActedArms, no_arms, with_arm};
use crate::labels::typed_labels;
use crate::rules::{assigned, chosen, followed, matched, nothing};
use crate::turns::{arms_behind, made_behind, one_more};
use fourvec::Four;
use items::{Boxed, Items};
use std::alloc::Global;
use sv_loops::{enter, leave, turns};
use sv_names::Names;
use sv_outside::{Place, TextErr};
use sv_targets::typed_targets;
use sv_tree::{Arm, CaseWord, Stmt, Word};
use sv_typing::{IndexRule, Position, typed};

/// Actions, and how many turns of loops were made up to their end.
#[derive(Drop)]
pub struct Acted {
    pub actions: Items<Action>,
    pub made: u64,
}

// Whether the Z bits of labels are not compared.
fn is_masked(word: CaseWord) -> bool
    ensures { result ≡ is_casez word }
{
    match word {
        CaseWord::Case => false,
        CaseWord::Casez => true,
    }
}

// What a statement does, with its loops unrolled.
#[cycle(stmt)]
fn typed_stmt(
    alloc: Global,
    stmt: &Stmt,
    names: &mut Names<'_>,
    made: u64,
) -> Result<Acted, TextErr>
    ensures is { JudgesDeed (deed stmt.now (names_are names.old)) made result }
    ensures aims { (named : List NamedSignal) → Within (target_signals (names_are names.old) stmt.now) named → IfOk result (ActedAims named) }
    ensures frames { stack_of names.new ≡ stack_of names.old }
    ensures loops { loops_of names.new ≡ loops_of names.old }
{
    match stmt {
        Stmt::Empty => Ok(nothing(alloc, made)),
        Stmt::Block(_, _, all, _) => typed_all(alloc, all.as_slice(), names, made),
        Stmt::If(_, condition, body, other) => {
            let condition = typed(alloc, condition, names, Position::Free);
            let first = typed_stmt(alloc, body.get(), names, made);
            let second = typed_else(alloc, other, names, made_behind(&first));
            chosen(alloc, condition, first, second)
        }
        Stmt::Case(_, word, value, all) => {
            let value = typed(alloc, value, names, Position::Free);
            let arms = typed_arms(alloc, all.as_slice(), names, made);
            let rest = typed_rest(alloc, all.as_slice(), names, arms_behind(&arms));
            matched(alloc, is_masked(*word), value, arms, rest)
        }
        Stmt::For(place, _, variable, start, test, next, body) => {
            match turns(alloc, *place, names, variable, start, test, next) {
                Ok(values) => typed_turns(
                    alloc,
                    *place,
                    values.as_slice(),
                    names,
                    variable,
                    body.get(),
                    made,
                ),
                Err(why) => Err(why),
            }
        }
        Stmt::Assign(target, _, _, value) => assigned(
            alloc,
            typed_targets(alloc, target, names, IndexRule::Read(Position::Free)),
            typed(alloc, value, names, Position::Free),
            made,
        ),
    }
}

// Statements one after the other.
#[cycle(stmt)]
fn typed_all(
    alloc: Global,
    all: &[Stmt],
    names: &mut Names<'_>,
    made: u64,
) -> Result<Acted, TextErr>
    ensures is { JudgesDeed (all_deeds (names_are names.old) all.now) made result }
    ensures aims { (named : List NamedSignal) → Within (of_each (target_signals (names_are names.old)) all.now) named → IfOk result (ActedAims named) }
    ensures frames { stack_of names.new ≡ stack_of names.old }
    ensures loops { loops_of names.new ≡ loops_of names.old }
{
    let mut found = nothing(alloc, made);
    'parts: for part in all {
        let next = typed_stmt(alloc, part, names, found.made);
        match followed(found, next) {
            Ok(more) => found = more,
            Err(why) => return Err(why),
        }
    }
    Ok(found)
}

// The statement behind an `else`.
#[cycle(stmt)]
fn typed_else(
    alloc: Global,
    other: &Option<Boxed<Stmt>>,
    names: &mut Names<'_>,
    made: u64,
) -> Result<Acted, TextErr>
    ensures is { JudgesDeed (else_deed (names_are names.old) other.now) made result }
    ensures aims { (named : List NamedSignal) → Within (other_signals (names_are names.old) other.now) named → IfOk result (ActedAims named) }
    ensures frames { stack_of names.new ≡ stack_of names.old }
    ensures loops { loops_of names.new ≡ loops_of names.old }
{
    match other {
        Some(body) => typed_stmt(alloc, body.get(), names, made),
        None => Ok(nothing(alloc, made)),
    }
}

// The arms of a case statement without the default.
#[cycle(stmt)]
fn typed_arms(
    alloc: Global,
    all: &[Arm],
    names: &mut Names<'_>,
    made: u64,
) -> Result<ActedArms, TextErr>
    ensures is { JudgesArms (all_arms (names_are names.old) all.now) made result }
    ensures aim { (named : List NamedSignal) → Within (of_each (arm_signals (names_are names.old)) all.now) named → IfOk result (ArmsAim named) }
    ensures frames { stack_of names.new ≡ stack_of names.old }
    ensures loops { loops_of names.new ≡ loops_of names.old }
{
    let mut found = no_arms(alloc, made);
    'arms: for arm in all {
        match typed_arm(alloc, found, arm, names) {
            Ok(more) => found = more,
            Err(why) => return Err(why),
        }
    }
    Ok(found)
}

// The arms so far, and one more, unless that is the default.
#[cycle(stmt)]
fn typed_arm(
    alloc: Global,
    found: ActedArms,
    arm: &Arm,
    names: &mut Names<'_>,
) -> Result<ActedArms, TextErr>
    ensures is { (arms : List CaseArm) (made : ℕ) → AreArms arms made found → JudgesArms (arms ++ arm_of (names_are names.old) arm.now) made result }
    ensures aim { (named : List NamedSignal) → ArmsAim named found → Within (arm_signals (names_are names.old) arm.now) named → IfOk result (ArmsAim named) }
    ensures frames { stack_of names.new ≡ stack_of names.old }
    ensures loops { loops_of names.new ≡ loops_of names.old }
{
    match arm {
        Arm::Labels(labels, body) => {
            let labels = typed_labels(alloc, labels.as_slice(), names);
            let body = typed_stmt(alloc, body.get(), names, found.made);
            with_arm(found, labels, body)
        }
        Arm::Default(_, _) => Ok(found),
    }
}

// The default of a case statement.
#[cycle(stmt)]
fn typed_rest(
    alloc: Global,
    all: &[Arm],
    names: &mut Names<'_>,
    made: u64,
) -> Result<Acted, TextErr>
    ensures is { JudgesDeed (rest_of (names_are names.old) all.now) made result }
    ensures aims { (named : List NamedSignal) → Within (of_each (arm_signals (names_are names.old)) all.now) named → IfOk result (ActedAims named) }
    ensures frames { stack_of names.new ≡ stack_of names.old }
    ensures loops { loops_of names.new ≡ loops_of names.old }
{
    'arms: for arm in all {
        match arm {
            Arm::Default(_, body) => return typed_stmt(alloc, body.get(), names, made),
            Arm::Labels(_, _) => {}
        }
    }
    Ok(nothing(alloc, made))
}

// The turns of a loop, one after the other.
#[cycle(stmt)]
fn typed_turns(
    alloc: Global,
    place: Place,
    values: &[Four],
    names: &mut Names<'_>,
    variable: &Word,
    body: &Stmt,
    made: u64,
) -> Result<Acted, TextErr>
    ensures is { JudgesDeed (in_order (turn_deed (names_are names.old) place variable.now.text body.now) values.now) made result }
    ensures aims { (named : List NamedSignal) → Within (target_signals (names_are names.old) body.now) named → IfOk result (ActedAims named) }
    ensures frames { stack_of names.new ≡ stack_of names.old }
    ensures loops { loops_of names.new ≡ loops_of names.old }
{
    let mut found = nothing(alloc, made);
    'turns: for bits in values {
        let next = typed_turn(alloc, place, *bits, names, variable, body, found.made);
        match followed(found, next) {
            Ok(more) => found = more,
            Err(why) => return Err(why),
        }
    }
    Ok(found)
}

// The turn of a loop in which its variable has these bits.
#[cycle(stmt)]
fn typed_turn(
    alloc: Global,
    place: Place,
    bits: Four,
    names: &mut Names<'_>,
    variable: &Word,
    body: &Stmt,
    made: u64,
) -> Result<Acted, TextErr>
    ensures is { JudgesDeed (turn_deed (names_are names.old) place variable.now.text body.now bits) made result }
    ensures aims { (named : List NamedSignal) → Within (target_signals (names_are names.old) body.now) named → IfOk result (ActedAims named) }
    ensures frames { stack_of names.new ≡ stack_of names.old }
    ensures loops { loops_of names.new ≡ loops_of names.old }
{
    one_more(place, made)?;
    enter(names, variable, bits)?;
    let acted = typed_stmt(alloc, body, names, made + 1);
    leave(names);
    acted
}

/// What a statement does, with its loops unrolled, where so many turns of loops were made before it; or why it is refused: E2, E12,
/// E14, E15, E16, E19, E20, E23 or E25. The names are afterwards as before.
pub fn typed_body(
    alloc: Global,
    stmt: &Stmt,
    names: &mut Names<'_>,
    made: u64,
) -> Result<Acted, TextErr>
    ensures is { JudgesDeed (deed stmt.now (names_are names.old)) made result }
    ensures aims { (named : List NamedSignal) → Within (target_signals (names_are names.old) stmt.now) named → IfOk result (ActedAims named) }
    ensures names { names_are names.new ≡ names_are names.old }
{
    typed_stmt(alloc, stmt, names, made)
}
