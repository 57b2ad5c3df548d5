// Actuals of ports as targets (IEEE 1800-2017, 23.3.3). An actual is parsed as an expression, so what may be a target is told
// here: names with selects, and braces of these. Each refusal of another form stands where the whole actual begins, whichever
// part of it is at fault. An index of an input's actual is read among all names of its place, since the port may also take its
// value; that of any other is a constant expression.
ghost use Rattle.std.specs.Prelude.{◌≡◌, map};
ghost use Rattle.sv_names.specs.Names.{names_are};
ghost use Rattle.sv_meaning.specs.Designs.{as_targets, actual_faults, part_faults, index_scope};
ghost use Rattle.sv_meaning.specs.Layouts as m;
ghost use Rattle.sv_meaning.specs.Meanings.{fixed_faults};
ghost use Rattle.sv_meaning.specs.Targets as t;
ghost use Rattle.sv_meaning.specs.Values.{step};
ghost use Rattle.sv_targets.specs.Targets.{JudgesTarget, JudgesTargets, AreNarrow, actual_list_faults, actual_list_targets, no_target};

use crate::targets::{TypedTarget, appended, braced, named_target, one_target};
use items::Items;
use std::alloc::Global;
use sv_names::Names;
use sv_outside::{Place, TextErr, refusals};
use sv_tree::{Expr, Select, Way, Word};
use sv_typing::{IndexRule, refusal, start};

// What is no name with selects and no concatenation, in an actual that begins at a place: E19 there.
fn not_assignable(begin: Place) -> TextErr
    ensures { result ≡ no_target begin }
{
    TextErr::No(refusal(refusals::BAD_TARGET, begin))
}

// A name with its selects in the actual of a port of this direction: an index of an input's is read among all names of its place, and
// that of any other is a constant expression.
fn name_in(
    alloc: Global,
    word: &Word,
    selects: &[Select],
    begin: Place,
    names: &Names<'_>,
    way: Way,
) -> Result<TypedTarget, TextErr>
    ensures { JudgesTarget fixed_faults (t.target_faults fixed_faults begin word.now (m.find word.now.text (names_are names.now)) (map (step (index_scope way (names_are names.now))) selects.now)) (t.target_of (m.find word.now.text (names_are names.now)) (map (step (index_scope way (names_are names.now))) selects.now)) result }
{
    match way {
        Way::Input => named_target(alloc, begin, word, selects, names, IndexRule::Joined),
        Way::Output | Way::Inout => {
            named_target(alloc, begin, word, selects, names, IndexRule::Fixed)
        }
    }
}

// The parts of a part of an actual that begins at a place.
#[cycle(actual)]
fn part_in(
    alloc: Global,
    actual: &Expr,
    begin: Place,
    names: &Names<'_>,
    way: Way,
) -> Result<Items<TypedTarget>, TextErr>
    ensures is { JudgesTargets fixed_faults (part_faults begin (index_scope way (names_are names.now)) (names_are names.now) actual.now) (as_targets (index_scope way (names_are names.now)) (names_are names.now) actual.now) result }
    ensures narrow { AreNarrow result }
{
    match actual {
        Expr::Name(word, selects) => one_target(
            alloc,
            name_in(alloc, word, selects.as_slice(), begin, names, way),
        ),
        Expr::Concat(place, parts) => {
            braced(*place, parts_in(alloc, parts.as_slice(), begin, names, way))
        }
        Expr::Literal(_) => Err(not_assignable(begin)),
        Expr::Paren(_, _) => Err(not_assignable(begin)),
        Expr::Repeat(_, _, _) => Err(not_assignable(begin)),
        Expr::CastLiteral(_, _) => Err(not_assignable(begin)),
        Expr::CastName(_, _) => Err(not_assignable(begin)),
        Expr::CastParen(_, _, _) => Err(not_assignable(begin)),
        Expr::CastSign(_, _, _) => Err(not_assignable(begin)),
        Expr::System(_, _, _) => Err(not_assignable(begin)),
        Expr::Unary(_, _, _) => Err(not_assignable(begin)),
        Expr::Binary(_, _, _, _) => Err(not_assignable(begin)),
        Expr::Choose(_, _, _) => Err(not_assignable(begin)),
    }
}

#[cycle(actual)]
fn parts_in(
    alloc: Global,
    parts: &[Expr],
    begin: Place,
    names: &Names<'_>,
    way: Way,
) -> Result<Items<TypedTarget>, TextErr>
    ensures { JudgesTargets fixed_faults (actual_list_faults begin (index_scope way (names_are names.now)) (names_are names.now) parts.now) (actual_list_targets (index_scope way (names_are names.now)) (names_are names.now) parts.now) result }
{
    let mut all = Items::new(alloc);
    'parts: for part in parts {
        match appended(all, part_in(alloc, part, begin, names, way)) {
            Ok(more) => all = more,
            Err(why) => return Err(why),
        }
    }
    Ok(all)
}

/// The parts of the actual of a port of this direction that is a net or variable with selects or a concatenation of these, the most
/// significant first, where each index is constant and wholly 0 and 1; or why it is refused: E19 where it begins, E12, E14 or E23, or what an
/// index is refused for.
pub fn typed_actual(
    alloc: Global,
    actual: &Expr,
    names: &Names<'_>,
    way: Way,
) -> Result<Items<TypedTarget>, TextErr>
    ensures is { JudgesTargets fixed_faults (actual_faults (index_scope way (names_are names.now)) (names_are names.now) actual.now) (as_targets (index_scope way (names_are names.now)) (names_are names.now) actual.now) result }
    ensures narrow { AreNarrow result }
{
    let begin = start(actual);
    part_in(alloc, actual, begin, names, way)
}
