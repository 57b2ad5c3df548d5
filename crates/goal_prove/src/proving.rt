// The two questions of a goal, and the verdict. Whether some choice meets the hypotheses and breaks the claims is asked first, since a
// failure ends the search; only where none does is it asked whether some choice meets them, which tells what is proved from what holds of
// nothing. Both are literals of one graph, made once. The nodes that were made on the way are cut off again before anything is
// asked, so that the arena is as it was whatever comes.
ghost use Rattle.std.specs.Prelude.{◌≡◌, ◌<◌, ◌≤◌, ℕ, List, All, IfOk, IfSome, IsTrue, length};
ghost use Rattle.aig.specs.Graph.{IsIn, count_inputs};
ghost use Rattle.goal_gates.specs.Goals.{goal_of, is_chosen};
ghost use Rattle.goal_prove.specs.Verdicts.{IsBrokenBy, IsPosed, IsRight};
ghost use Rattle.goal_prove.specs.Asked.{IsNever};
ghost use Rattle.choice_inputs.specs.Questions.{IsTold};
ghost use Rattle.svex_shape.specs.declared.shape.Shape.{Shape};
ghost use Rattle.svex_shape.specs.Shapes.{width_at};
ghost use Rattle.svex_shape.specs.Values.{each_variable};
ghost use Rattle.svtv_choices.specs.Choices.{bits_of};
ghost use Rattle.svtv_table.specs.Binding.{HasWidth};

use crate::answers::{Answer, ask};
use crate::certs::{Cert, Left, Verdict};
use aig::Lit;
use goal_gates::{Posed, pose};
use refute_check::Checked;
use std::alloc::{AllocError, Global};
use svex_arena::{Arena, Node};
use svtv_table::VarDecl;

// The verdict of a question that was left.
fn undecided(posed: Posed, root: Lit, cert: Cert) -> Verdict
    ensures { result ≡ Verdict.Undecided record { aig = posed.aig; root = root; cert = cert } }
{
    Verdict::Undecided(Left {
        aig: posed.into_aig(),
        root,
        cert,
    })
}

// The second question, where the first has no answer.
fn second(
    alloc: Global,
    posed: Posed,
    vars: &[VarDecl],
    budget: Option<u64>,
    first: Checked,
) -> Result<Verdict, AllocError>
    requires widths { All (λ var. HasWidth var.width) vars.now }
    requires inputs { count_inputs posed.aig ≡ bits_of vars.now }
    requires meets_in { IsIn posed.aig posed.meets }
    requires budget { IfSome budget (λ n. 0 < n) }
    ensures { (shapes : List Shape) (samples hyps claims : List ℕ) → IsPosed (goal_of shapes vars.now samples hyps claims) posed → IsNever vars.now (IsTold posed.aig posed.breaks) first → IfOk result (IsRight (goal_of shapes vars.now samples hyps claims) budget) }
{
    let root = posed.meets;
    match ask(alloc, &posed.aig, root, vars, budget)? {
        Answer::Found(_) => Ok(Verdict::Proved(first)),
        Answer::Never(cert) => Ok(Verdict::Vacuous(cert)),
        Answer::Spent(cert) => Ok(undecided(posed, root, cert)),
    }
}

// The first question, and then the second.
fn decide(
    alloc: Global,
    posed: Posed,
    vars: &[VarDecl],
    budget: Option<u64>,
) -> Result<Verdict, AllocError>
    requires widths { All (λ var. HasWidth var.width) vars.now }
    requires inputs { count_inputs posed.aig ≡ bits_of vars.now }
    requires meets_in { IsIn posed.aig posed.meets }
    requires breaks_in { IsIn posed.aig posed.breaks }
    requires budget { IfSome budget (λ n. 0 < n) }
    ensures { (shapes : List Shape) (samples hyps claims : List ℕ) → IsPosed (goal_of shapes vars.now samples hyps claims) posed → IfOk result (IsRight (goal_of shapes vars.now samples hyps claims) budget) }
{
    let root = posed.breaks;
    match ask(alloc, &posed.aig, root, vars, budget)? {
        Answer::Found(choice) => Ok(Verdict::Failed(choice)),
        Answer::Never(cert) => second(alloc, posed, vars, budget, cert),
        Answer::Spent(cert) => Ok(undecided(posed, root, cert)),
    }
}

/// Whether some choice meets the hypotheses of a goal and breaks its claims: the first of its two questions alone. What is left has clauses that
/// ask it, over no more variables than the goal has room for.
pub fn ask_broken(
    alloc: Global,
    arena: &mut Arena,
    vars: &[VarDecl],
    samples: &[Node],
    hyps: &[Node],
    claims: &[Node],
    budget: Option<u64>,
) -> Result<Answer, AllocError>
    requires widths { All (λ var. HasWidth var.width) vars.now }
    requires samples { All (λ node. node < length arena.old) samples.now }
    requires chosen { All (λ node. IsTrue (each_variable is_chosen arena.old node)) samples.now }
    requires hyps { All (λ node. node < length arena.old) hyps.now }
    requires claims { All (λ node. node < length arena.old) claims.now }
    requires one_bit { All (λ node. width_at arena.old node ≡ 1) hyps.now }
    requires one_bit_claims { All (λ node. width_at arena.old node ≡ 1) claims.now }
    requires budget { IfSome budget (λ n. 0 < n) }

    // Some choice does, or none, or the budget was used up.
    ensures answer { IfOk result (IsBrokenBy (goal_of arena.old vars.now samples.now hyps.now claims.now) budget) }

    // The arena is as it was, whatever is answered.
    ensures same { arena.new ≡ arena.old }
{
    let len = arena.len();
    let posed = pose(alloc, arena, vars, samples, hyps, claims);
    arena.cut(len);
    let posed = posed?;
    ask(alloc, &posed.aig, posed.breaks, vars, budget)
}

/// Decides a goal whose hypotheses and claims are nodes of one bit, over the variables of a table and its samples: a failure shows a
/// choice, and what is proved or vacuous has a certificate that the judge has accepted. Where a budget is given and the variables have over
/// 12 bits, a question is left once as many new clauses were learned.
pub fn prove_goal(
    alloc: Global,
    arena: &mut Arena,
    vars: &[VarDecl],
    samples: &[Node],
    hyps: &[Node],
    claims: &[Node],
    budget: Option<u64>,
) -> Result<Verdict, AllocError>
    requires widths { All (λ var. HasWidth var.width) vars.now }
    requires samples { All (λ node. node < length arena.old) samples.now }
    requires chosen { All (λ node. IsTrue (each_variable is_chosen arena.old node)) samples.now }
    requires hyps { All (λ node. node < length arena.old) hyps.now }
    requires claims { All (λ node. node < length arena.old) claims.now }
    requires one_bit { All (λ node. width_at arena.old node ≡ 1) hyps.now }
    requires one_bit_claims { All (λ node. width_at arena.old node ≡ 1) claims.now }
    requires budget { IfSome budget (λ n. 0 < n) }

    // Each verdict is right.
    ensures right { IfOk result (IsRight (goal_of arena.old vars.now samples.now hyps.now claims.now) budget) }

    // The arena is as it was, whatever is answered.
    ensures same { arena.new ≡ arena.old }
{
    let len = arena.len();
    let posed = pose(alloc, arena, vars, samples, hyps, claims);
    arena.cut(len);
    decide(alloc, posed?, vars, budget)
}
