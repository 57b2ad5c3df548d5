// Goals decided in order, and the report. All are decided over one graph, which is after each as it was before it.
// Verdicts, names and samples are gathered in lists of equal length and printed afterwards, so that what is decided is a plain
// datum of which contracts speak, and the text is made of it.
ghost use Rattle.std.specs.Prelude.{◌≡◌, ◌<◌, List, IfOk, IfSome, All, length, map};
ghost use Rattle.std.specs.List.{AllZip, list_all};
ghost use Rattle.flat_net.specs.Flats.{IsFlat};
ghost use Rattle.fourvec.specs.declared.Bit.{Bit};
ghost use Rattle.goal_text.specs.Nodes.{IsGoal};
ghost use Rattle.goal_tree.specs.declared.tree.GoalTree.{GoalTree};
ghost use Rattle.sv_meaning.specs.Designs.{Design};
ghost use Rattle.svtv_decide.specs.Posing.{IsThere, Poses, bench};
ghost use Rattle.svtv_decide.specs.Passed.{AreLeastNodes};
ghost use Rattle.svtv_report.specs.Seen.{verdict_is};
ghost use Rattle.svtv_report.specs.Shown.{sample_texts, var_texts};
ghost use Rattle.svtv_report.specs.Texts as t;
ghost use Rattle.svtv_runs.specs.Runs.{Asked};
ghost use Rattle.svtv_table.specs.Binding.{HasWidth, IsBound};
ghost use Rattle.svtv_texts.specs.Rights as a;
ghost use Rattle.svtv_texts.specs.Rights.{AreRight, names_of};
ghost use Rattle.svtv_decide.specs.Passed.{AreSampleNodes};

use fourvec::Four;
use goal_text::Goal;
use items::Items;
use std::alloc::{AllocError, Global};
use sv_outside::Name;
use svex_arena::Arena;
use svtv_decide::{Decided, Problem, decide};
use svtv_report::{Verdict, report};
use svtv_table::Bound;

/// The verdicts of goals, each with its goal's name and the samples to show.
#[derive(Drop)]
pub struct Decisions {
    pub names: Items<Name>,
    pub verdicts: Items<Verdict>,
    pub shown: Items<Items<Four>>,
}

// Whether a goal is proved.
fn is_proved(verdict: &Verdict) -> bool
    ensures { result ≡ a.is_proved (verdict_is verdict.now) }
{
    match verdict {
        Verdict::Proved => true,
        Verdict::Vacuous | Verdict::Failed(_) | Verdict::Undecided(_) => false,
    }
}

fn all_proved(verdicts: &[Verdict]) -> bool
    ensures { result ≡ list_all (λ v. a.is_proved (verdict_is v)) verdicts.now }
{
    verdicts.iter().all(|verdict| is_proved(verdict))
}

/// Decides goals, in order.
pub fn decide_all(
    alloc: Global,
    problem: &Problem<'_>,
    arena: &mut Arena,
    goals: &[Goal],
) -> Result<Decisions, AllocError>
    requires flat { IsFlat problem.now.flat.now }
    requires bound { IsBound problem.now.flat.now.wires problem.now.bound.now }
    requires widths { All (λ var. HasWidth var.width) problem.now.bound.now.vars }
    requires samples { AreSampleNodes problem.now.bound.now.vars problem.now.bound.now.samples arena.old problem.now.samples.now }
    requires there { All (IsThere arena.old) goals.now }
    requires budget { IfSome problem.now.budget (λ n. 0 < n) }
    ensures names { IfOk result (λ x. x.names ≡ names_of goals.now) }
    ensures verdicts { IfOk result (λ x. length x.verdicts ≡ length x.names) }
    ensures shown { IfOk result (λ x. length x.shown ≡ length x.names) }
    ensures right { (d : Design) (asked : List (List Bit) → Asked) (trees : List GoalTree) → Poses d asked problem.now.flat.now problem.now.bound.now
        → AreLeastNodes d problem.now.bound.now arena.old problem.now.samples.now
        → AllZip (IsGoal problem.now.bound.now.vars problem.now.bound.now.samples arena.old) trees goals.now
        → IfOk result (λ x. AreRight (bench d asked problem.now.bound.now) trees problem.now.budget (map verdict_is x.verdicts) x.shown) }
{
    let mut found = Decisions {
        names: Items::new(alloc),
        verdicts: Items::new(alloc),
        shown: Items::new(alloc),
    };
    'goals: for goal in goals {
        let Decided { verdict, shown } = decide(alloc, problem, arena, goal)?;
        found.names.push(goal.name.copy()?)?;
        found.verdicts.push(verdict)?;
        found.shown.push(shown)?;
    }
    Ok(found)
}

/// Whether all goals are proved, and the report of their verdicts, of goals over a table that is bound.
pub fn reported(
    alloc: Global,
    bound: &Bound,
    decisions: &Decisions,
) -> Result<(bool, Vec<u8>), AllocError>
    requires verdicts { length decisions.now.verdicts ≡ length decisions.now.names }
    requires shown { length decisions.now.shown ≡ length decisions.now.names }
    ensures printed { IfOk result (λ x. x.1.items
        ≡ t.report (var_texts bound.now.vars) (sample_texts bound.now.samples) decisions.now.names (map verdict_is decisions.now.verdicts) decisions.now.shown) }
    ensures whole { IfOk result (λ x. x.0 ≡ list_all a.is_proved (map verdict_is decisions.now.verdicts)) }
{
    let text = report(
        alloc,
        decisions.names.as_slice(),
        decisions.verdicts.as_slice(),
        bound.vars.as_slice(),
        bound.samples.as_slice(),
        decisions.shown.as_slice(),
    )?;
    Ok((all_proved(decisions.verdicts.as_slice()), text))
}
