// A goal is decided over nodes, by gates, clauses, the solver and the judge, and what is said of nodes is said of the design: its
// hypotheses and claims have the truths of their expressions, and the samples those of the least run under each choice. What is true in
// the least run is true in every run. A failure shows the samples of its choice, which a simulation of the flat design gives, and not
// the nodes: so what is printed beside a choice rests on nothing that the verdict rests on.
ghost use Rattle.std.specs.Prelude.{◌≡◌, ◌<◌, ℕ, All, IfOk, IfSome, List, None, Some};
ghost use Rattle.flat_net.specs.Flats.{IsFlat};
ghost use Rattle.fourvec.specs.declared.Bit.{Bit};
ghost use Rattle.goal_text.specs.Nodes.{IsGoal};
ghost use Rattle.goal_tree.specs.declared.tree.GoalTree.{GoalTree};
ghost use Rattle.sv_meaning.specs.Designs.{Design};
ghost use Rattle.svtv_decide.specs.Posing.{AreShown, IfFails, IsThere, Poses, bench, cert_of, said_of};
ghost use Rattle.svtv_least.specs.Running.{AreAsWide};
ghost use Rattle.svtv_machine.specs.Least.{AreLeastNodes};
ghost use Rattle.svtv_report.specs.Seen.{verdict_is};
ghost use Rattle.svtv_runs.specs.Runs.{Asked};
ghost use Rattle.svtv_table.specs.Binding.{HasWidth, IsBound};
ghost use Rattle.svtv_machine.specs.Passed.{AreSampleNodes};
ghost use Rattle.svtv_verdicts.specs.Certs.{HasCert};
ghost use Rattle.svtv_verdicts.specs.Verdicts.{IsRight};

use crate::least::least_samples;
use flat_net::Flat;
use fourvec::Four;
use goal_prove::{Verdict as Found, prove_goal};
use goal_text::Goal;
use items::{Items, both};
use refute_check::Checked;
use std::alloc::{AllocError, Global};
use svex_arena::{Arena, Node};
use svtv_report::Verdict;
use svtv_table::Bound;

/// A flat design under a table that is bound to its wires, a node for each sample, and the budget of each question of a goal.
#[derive(Clone, Copy)]
pub struct Problem<'a> {
    pub flat: &'a Flat,
    pub bound: &'a Bound,
    pub samples: &'a [Node],
    pub budget: Option<u64>,
}

/// What is said of a goal, and the samples to show where it failed.
#[derive(Drop)]
pub struct Decided {
    pub verdict: Verdict,
    pub shown: Items<Four>,
}

/// What is said of a goal, and what certifies it.
#[derive(Drop)]
pub struct Certified {
    pub decided: Decided,
    pub cert: Option<Checked>,
}

// A verdict that shows no samples.
fn without_samples(alloc: Global, verdict: Verdict) -> Decided
    ensures verdict { result.verdict ≡ verdict }
{
    Decided {
        verdict,
        shown: Items::new(alloc),
    }
}

// A verdict that shows no samples, with what the judge has accepted.
fn with_cert(alloc: Global, verdict: Verdict, cert: Checked) -> Certified
    ensures verdict { result.decided.verdict ≡ verdict }
    ensures cert { result.cert ≡ Some cert }
{
    Certified {
        decided: without_samples(alloc, verdict),
        cert: Some(cert),
    }
}

// A verdict that nothing certifies.
fn without_cert(decided: Decided) -> Certified
    ensures { result ≡ record { decided = decided; cert = None } }
{
    Certified {
        decided,
        cert: None,
    }
}

// A failure under this choice, with its samples.
fn failed(alloc: Global, problem: &Problem<'_>, choice: Items<Four>) -> Result<Decided, AllocError>
    requires flat { IsFlat problem.now.flat.now }
    requires bound { IsBound problem.now.flat.now.wires problem.now.bound.now }
    requires choice { AreAsWide problem.now.bound.now.vars choice }
    ensures verdict { IfOk result (λ x. x.verdict ≡ Verdict.Failed choice) }
    ensures shown { IfOk result (λ x. AreShown problem.now.flat.now problem.now.bound.now choice x.shown) }
{
    let shown = least_samples(alloc, problem.flat, problem.bound, choice.as_slice());
    let (choice, shown) = both(choice, shown)?;
    Ok(Decided {
        verdict: Verdict::Failed(choice),
        shown,
    })
}

// What is said of the goal for what was found of its nodes.
fn said(alloc: Global, problem: &Problem<'_>, found: Found) -> Result<Certified, AllocError>
    requires flat { IsFlat problem.now.flat.now }
    requires bound { IsBound problem.now.flat.now.wires problem.now.bound.now }
    requires choice { IfFails found (AreAsWide problem.now.bound.now.vars) }
    ensures verdict { IfOk result (λ x. x.decided.verdict ≡ said_of found) }
    ensures shown { IfOk result (λ x. IfFails found (λ choice. AreShown problem.now.flat.now problem.now.bound.now choice x.decided.shown)) }
    ensures cert { IfOk result (λ x. x.cert ≡ cert_of found) }
{
    match found {
        Found::Proved(cert) => Ok(with_cert(alloc, Verdict::Proved, cert)),
        Found::Vacuous(cert) => Ok(with_cert(alloc, Verdict::Vacuous, cert)),
        Found::Failed(choice) => {
            let decided = failed(alloc, problem, choice)?;
            Ok(without_cert(decided))
        }
        Found::Undecided(left) => {
            let steps = left.cert.log.steps.len() as u64;
            Ok(without_cert(without_samples(alloc, Verdict::Undecided(steps))))
        }
    }
}

/// Decides a goal as `decide` does, and hands on what the judge has accepted.
pub fn certify(
    alloc: Global,
    problem: &Problem<'_>,
    arena: &mut Arena,
    goal: &Goal,
) -> Result<Certified, AllocError>
    requires flat { IsFlat problem.now.flat.now }
    requires bound { IsBound problem.now.flat.now.wires problem.now.bound.now }
    requires widths { All (λ var. HasWidth var.width) problem.now.bound.now.vars }
    requires samples { AreSampleNodes problem.now.bound.now.vars problem.now.bound.now.samples arena.old problem.now.samples.now }
    requires there { IsThere arena.old goal.now }
    requires budget { IfSome problem.now.budget (λ n. 0 < n) }

    // The verdict is right, as that of `decide` is.
    ensures right { (d : Design) (asked : List (List Bit) → Asked) (tree : GoalTree) → Poses d asked problem.now.flat.now problem.now.bound.now
        → AreLeastNodes d problem.now.bound.now arena.old problem.now.samples.now
        → IsGoal problem.now.bound.now.vars problem.now.bound.now.samples arena.old tree goal.now
        → IfOk result (λ x. IsRight (bench d asked problem.now.bound.now) tree problem.now.budget (verdict_is x.decided.verdict) x.decided.shown) }

    // What is proved or vacuous comes with clauses that ask the question of the design that it closes, and a log that refutes them.
    ensures cert { (d : Design) (asked : List (List Bit) → Asked) (tree : GoalTree) → Poses d asked problem.now.flat.now problem.now.bound.now
        → AreLeastNodes d problem.now.bound.now arena.old problem.now.samples.now
        → IsGoal problem.now.bound.now.vars problem.now.bound.now.samples arena.old tree goal.now
        → IfOk result (λ x. HasCert (bench d asked problem.now.bound.now) tree (verdict_is x.decided.verdict) x.cert) }

    // The graph is as it was, whatever is answered.
    ensures same { arena.new ≡ arena.old }
{
    // For the proof: recalls what the type promises of it.
    let _ = arena.len();
    let found = prove_goal(
        alloc,
        arena,
        problem.bound.vars.as_slice(),
        problem.samples,
        goal.hyps.as_slice(),
        goal.claims.as_slice(),
        problem.budget,
    )?;
    said(alloc, problem, found)
}

/// Decides a goal whose nodes stand in a graph, for all choices of the variables and all runs. Each of its two questions has the whole
/// budget, where there is one.
pub fn decide(
    alloc: Global,
    problem: &Problem<'_>,
    arena: &mut Arena,
    goal: &Goal,
) -> Result<Decided, AllocError>
    requires flat { IsFlat problem.now.flat.now }
    requires bound { IsBound problem.now.flat.now.wires problem.now.bound.now }
    requires widths { All (λ var. HasWidth var.width) problem.now.bound.now.vars }
    requires samples { AreSampleNodes problem.now.bound.now.vars problem.now.bound.now.samples arena.old problem.now.samples.now }
    requires there { IsThere arena.old goal.now }
    requires budget { IfSome problem.now.budget (λ n. 0 < n) }

    // The verdict is right of the design that the flat one stems from, where the samples have nodes of its least runs, and of the goal whose nodes
    // these are.
    ensures right { (d : Design) (asked : List (List Bit) → Asked) (tree : GoalTree) → Poses d asked problem.now.flat.now problem.now.bound.now
        → AreLeastNodes d problem.now.bound.now arena.old problem.now.samples.now
        → IsGoal problem.now.bound.now.vars problem.now.bound.now.samples arena.old tree goal.now
        → IfOk result (λ x. IsRight (bench d asked problem.now.bound.now) tree problem.now.budget (verdict_is x.verdict) x.shown) }

    // The graph is as it was, whatever is answered.
    ensures same { arena.new ≡ arena.old }
{
    let Certified { decided, cert: _ } = certify(alloc, problem, arena, goal)?;
    Ok(decided)
}
