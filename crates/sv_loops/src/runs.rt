// The turns of a loop, as the values that its variable has in them (IEEE 1800-2017, 12.7.1 and 27.4). For the condition and the
// step the variable stands above the names of the place and is taken off at once, so that the names are as before on every way
// out. Turns are listed before a body is looked at: they do not depend on it, since no statement assigns the variable.
ghost use Rattle.std.specs.Prelude.{◌≡◌, ◌∷◌, [], ◌++◌, List, length, IfOk, IfErr, OnOk, OnErr};
ghost use Rattle.sv_outside.specs.declared.refusal.TextErr.TheVariants.{Memory};
ghost use Rattle.sv_meaning.specs.Deeds.{turns, turns_from, holds_at, next_value, with_index, most_turns};
ghost use Rattle.sv_names.specs.Kinds.{Entry};
ghost use Rattle.sv_names.specs.Names.{constants_are, stack_of, loops_of};
ghost use Rattle.sv_loops.specs.Answers.{Gives};
ghost use Rattle.sv_loops.specs.Steps.{index_is};

use crate::constants::{condition, index_value};
use crate::steps::next_value;
use fourvec::Four;
use items::Items;
use std::alloc::Global;
use sv_names::{Known, Names};
use sv_outside::{Place, TextErr, refusals};
use sv_tree::{Expr, Step, Word};
use sv_typing::refusal;

/// How many turns a loop has at most.
const MOST_TURNS: usize = 4096;

/// How many turns all loops of a design have together at most (this tool's rule).
pub const MOST_TURNS_TOGETHER: u64 = 1_000_000;

/// Enters a loop, whose variable has these bits. Where memory is out, nothing changes.
pub fn enter(names: &mut Names<'_>, variable: &Word, bits: Four) -> Result<(), TextErr>
    ensures frames { stack_of names.new ≡ stack_of names.old }
    ensures loops { OnOk result (loops_of names.new ≡ loops_of names.old ++ index_is variable.now.text bits ∷ []) }
    ensures err { OnErr result (loops_of names.new ≡ loops_of names.old) }
    ensures memory { IfErr result (λ why. why ≡ Memory) }
{
    let name = variable.text.copy()?;
    names.push_loop(
        name,
        Known {
            value: bits,
            signed: true,
        },
    )?;
    Ok(())
}

/// Leaves the innermost loop.
#[tactic(auto, using(crate::proofs::Frames::last_off, crate::proofs::Frames::none_off))]
pub fn leave(names: &mut Names<'_>)
    ensures frames { stack_of names.new ≡ stack_of names.old }
    ensures loops { (all : List Entry) (last : Entry) → loops_of names.old ≡ all ++ last ∷ [] → loops_of names.new ≡ all }
{
    names.pop_loop();
}

// Whether the condition holds where the variable has these bits.
fn holds_at(
    alloc: Global,
    names: &mut Names<'_>,
    variable: &Word,
    bits: Four,
    test: &Expr,
) -> Result<bool, TextErr>
    ensures is { Gives (holds_at (constants_are names.old) variable.now.text test.now bits) result }
    ensures loops { loops_of names.new ≡ loops_of names.old }
    ensures frames { stack_of names.new ≡ stack_of names.old }
{
    enter(names, variable, bits)?;
    let taken = condition(alloc, test, names);
    leave(names);
    taken
}

// The next value where the variable has these bits.
fn following(
    alloc: Global,
    names: &mut Names<'_>,
    variable: &Word,
    bits: Four,
    next: &Step,
) -> Result<Four, TextErr>
    requires { length bits ≡ 32 }
    ensures is { Gives (next_value (with_index (constants_are names.old) variable.now.text bits) bits next.now) result }
    ensures loops { loops_of names.new ≡ loops_of names.old }
    ensures frames { stack_of names.new ≡ stack_of names.old }
    ensures width { IfOk result (λ value. length value ≡ 32) }
{
    enter(names, variable, bits)?;
    let value = next_value(alloc, next, &bits, names);
    leave(names);
    value
}

// The values of the variable in all turns, from its first value on.
fn turns_from(
    alloc: Global,
    place: Place,
    names: &mut Names<'_>,
    variable: &Word,
    first: Four,
    test: &Expr,
    next: &Step,
) -> Result<Items<Four>, TextErr>
    requires { length first ≡ 32 }
    ensures is { Gives (turns_from most_turns place (constants_are names.old) variable.now.text test.now next.now first) result }
    ensures loops { loops_of names.new ≡ loops_of names.old }
    ensures frames { stack_of names.new ≡ stack_of names.old }
{
    let mut values = Items::new(alloc);
    let mut bits = first;
    let mut taken = holds_at(alloc, names, variable, bits, test)?;
    'turns: while taken {
        if values.len() == MOST_TURNS {
            return Err(TextErr::No(refusal(refusals::LOOP_LONG, place)));
        }
        values.push(bits)?;
        let value = following(alloc, names, variable, bits, next)?;
        taken = holds_at(alloc, names, variable, value, test)?;
        bits = value;
    }
    Ok(values)
}

/// The values of the variable in all turns of the loop at a place, 32 bits each, in order; or why the loop is refused: E20
/// at its place where it has more than 4,096 turns, or E2, E12, E14, E15, E16, E23 or E25 (12.7.1, 27.4). The names are
/// afterwards what they were before.
pub fn turns(
    alloc: Global,
    place: Place,
    names: &mut Names<'_>,
    variable: &Word,
    start: &Expr,
    test: &Expr,
    next: &Step,
) -> Result<Items<Four>, TextErr>
    ensures is { Gives (turns place (constants_are names.old) variable.now.text start.now test.now next.now) result }
    ensures loops { loops_of names.new ≡ loops_of names.old }
    ensures frames { stack_of names.new ≡ stack_of names.old }
{
    let first = index_value(alloc, start, names)?;
    turns_from(alloc, place, names, variable, first, test, next)
}
