// Goals as nodes: each hypothesis and claim becomes the node of its truth, 1 where some bit is 1 (IEEE 1800-2017, 12.4). An
// expression is typed by itself, with no size from outside, and then lowered; but for a name that repeats another only typing
// refuses. Hypotheses see the variables of the table alone, so that they can be judged before a run, and claims see its samples
// too.
ghost use Rattle.std.specs.Prelude.{◌≡◌, ◌∷◌, [], All, IfErr, IfOk, OnOk};
ghost use Rattle.std.specs.List.{AllZip};
ghost use Rattle.goal_text.specs.Faults.{exprs_faults, goal_faults, goals_faults, tree_faults, twice_goal};
ghost use Rattle.goal_text.specs.Nodes.{HasTruth, IsGoal, IsLowered, IsTruthOf};
ghost use Rattle.goal_text.specs.Scopes.{variables_of, claims_scope};
ghost use Rattle.sv_typing.specs.Judging.{IsCause};
ghost use Rattle.sv_names.specs.Names.{names_are};
ghost use Rattle.sv_meaning.specs.Faults.{fault_if};
ghost use Rattle.sv_meaning.specs.Meanings.{free_faults};
ghost use Rattle.sv_meaning.specs.Values.{mean};
ghost use Rattle.sv_modules.specs.Naming.{holds, Adds};
ghost use Rattle.sv_typed.specs.Typed.{IsSound};
ghost use Rattle.svex_arena.specs.Arenas.{Extends};
ghost use Rattle.svtv_table.specs.Binding.{HasWidth};

use crate::Goal;
use crate::scopes::{claim_names, hyp_names, sampled, variables};
use goal_tree::GoalTree;
use items::Items;
use std::alloc::{AllocError, Global};
use sv_lower::{Look, lower};
use sv_modules::NameSet;
use sv_names::{NameDigest, Names};
use sv_outside::{TextErr, refusals};
use sv_tree::{Expr, Word};
use sv_typed::Typed;
use sv_typing::{Position, refusal, typed};
use svex_arena::{Arena, Node, Shape, Un};
use svtv_table::{Sample, VarDecl};

// The node of the truth of a typed expression, evaluated by itself.
#[tactic(auto, using(svex_arena::proofs::Keeping::extends_on))]
fn truth_of(alloc: Global, arena: &mut Arena, typed: &Typed) -> Result<Node, AllocError>
    requires { IsSound typed.now }
    ensures stays { Extends arena.old arena.new }
    ensures ok { IfOk result (λ n. IsTruthOf arena.old arena.new typed.now n) }
{
    let whole = lower(
        alloc,
        arena,
        typed,
        &Look::Present,
        typed.width,
        typed.signed,
    )?;
    let bit = arena.intern(alloc, Shape::Unary(Un::Truth, whole))?;
    Ok(bit)
}

// The node of the truth of an expression, or why it is refused.
#[tactic(auto, using(svex_arena::proofs::Keeping::extends_self))]
fn truth(alloc: Global, arena: &mut Arena, expr: &Expr, names: &Names<'_>) -> Result<Node, TextErr>
    ensures stays { Extends arena.old arena.new }
    ensures clear { OnOk result (free_faults (mean (names_are names.now) expr.now) ≡ []) }
    ensures truth { IfOk result (λ n. HasTruth (names_are names.now) arena.new expr.now n) }
    ensures cause { IfErr result (λ e. IsCause (free_faults (mean (names_are names.now) expr.now)) e) }
{
    match typed(alloc, expr, names, Position::Free) {
        Ok(tree) => {
            let node = truth_of(alloc, arena, &tree)?;
            Ok(node)
        }
        Err(e) => Err(e),
    }
}

// The truths of expressions, in order.
fn truths(
    alloc: Global,
    arena: &mut Arena,
    exprs: &[Expr],
    names: &Names<'_>,
) -> Result<Items<Node>, TextErr>
    ensures stays { Extends arena.old arena.new }
    ensures clear { OnOk result (exprs_faults (names_are names.now) exprs.now ≡ []) }
    ensures truths { IfOk result (λ nodes. AllZip (HasTruth (names_are names.now) arena.new) exprs.now nodes) }
    ensures cause { IfErr result (λ e. IsCause (exprs_faults (names_are names.now) exprs.now) e) }
{
    let mut nodes = Items::new(alloc);
    'exprs: for expr in exprs {
        let node = truth(alloc, arena, expr, names)?;
        nodes.push(node)?;
    }
    Ok(nodes)
}

// Puts the name of a goal in, which no goal before has.
#[tactic(auto, using(crate::proofs::Judged::twice))]
fn note(names: &mut NameSet, word: &Word) -> Result<(), TextErr>
    ensures clear { OnOk result (fault_if (holds names.old word.now.text) twice_goal word.now.place ≡ []) }
    ensures adds { OnOk result (Adds names.old (word.now.text ∷ []) names.new) }
    ensures cause { IfErr result (λ e. IsCause (fault_if (holds names.old word.now.text) twice_goal word.now.place) e) }
{
    if names.has(word.text.bytes()) {
        return Err(TextErr::No(refusal(refusals::GOAL_TWICE, word.place)));
    }
    names.add(word.text.bytes())?;
    Ok(())
}

// The goal of a tree, behind goals of these names.
#[tactic(auto, using(svex_arena::proofs::Keeping::extends_self, svex_arena::proofs::Keeping::extends_on))]
fn goal(
    alloc: Global,
    arena: &mut Arena,
    tree: &GoalTree,
    before: &mut NameSet,
    hyps: &Names<'_>,
    claims: &Names<'_>,
) -> Result<Goal, TextErr>
    ensures stays { Extends arena.old arena.new }
    ensures clear { OnOk result (tree_faults (holds before.old tree.now.name.text) (names_are hyps.now) (names_are claims.now) tree.now ≡ []) }
    ensures adds { OnOk result (Adds before.old (tree.now.name.text ∷ []) before.new) }
    ensures goal { IfOk result (λ goal. IsLowered (names_are hyps.now) (names_are claims.now) arena.new tree.now goal) }
    ensures cause { IfErr result (λ e. IsCause (tree_faults (holds before.old tree.now.name.text) (names_are hyps.now) (names_are claims.now) tree.now) e) }
{
    note(before, &tree.name)?;
    let hyps = truths(alloc, arena, tree.hyps.as_slice(), hyps)?;
    let claims = truths(alloc, arena, tree.claims.as_slice(), claims)?;
    let name = tree.name.text.copy()?;
    Ok(Goal { name, hyps, claims })
}

// A digest of the names of goals.
fn names_key(trees: &[GoalTree]) -> u128 {
    let mut digest = NameDigest::new();
    'trees: for tree in trees {
        digest.take(tree.name.text.bytes());
    }
    digest.key()
}

// The goals of trees, in order.
fn goals(
    alloc: Global,
    arena: &mut Arena,
    trees: &[GoalTree],
    hyps: &Names<'_>,
    claims: &Names<'_>,
) -> Result<Items<Goal>, TextErr>
    ensures stays { Extends arena.old arena.new }
    ensures clear { OnOk result (goals_faults [] (names_are hyps.now) (names_are claims.now) trees.now ≡ []) }
    ensures goals { IfOk result (λ goals. AllZip (IsLowered (names_are hyps.now) (names_are claims.now) arena.new) trees.now goals) }
    ensures cause { IfErr result (λ e. IsCause (goals_faults [] (names_are hyps.now) (names_are claims.now) trees.now) e) }
{
    let mut names = NameSet::new(alloc, names_key(trees));
    let mut found = Items::new(alloc);
    'trees: for tree in trees {
        let part = goal(alloc, arena, tree, &mut names, hyps, claims)?;
        found.push(part)?;
    }
    Ok(found)
}

/// The goals of trees over the variables and samples of a table, or one of the refusals that stand against them.
#[tactic(auto, using(svex_arena::proofs::Keeping::extends_self))]
pub fn lowered(
    alloc: Global,
    arena: &mut Arena,
    trees: &[GoalTree],
    vars: &[VarDecl],
    samples: &[Sample],
) -> Result<Items<Goal>, TextErr>
    requires vars { All (λ var. HasWidth var.width) vars.now }
    requires samples { All (λ sample. HasWidth sample.width) samples.now }
    ensures stays { Extends arena.old arena.new }
    ensures clear { OnOk result (goal_faults vars.now samples.now trees.now ≡ []) }
    ensures goals { IfOk result (λ goals. AllZip (IsGoal vars.now samples.now arena.new) trees.now goals) }
    ensures cause { IfErr result (λ e. IsCause (goal_faults vars.now samples.now trees.now) e) }
{
    let variables = variables(alloc, vars)?;
    let sampled = sampled(alloc, samples)?;
    let hyps = hyp_names(alloc, &variables)?;
    let claims = claim_names(alloc, &variables, &sampled)?;
    let found = goals(alloc, arena, trees, &hyps, &claims)?;
    Ok(found)
}
