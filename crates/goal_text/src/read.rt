// The goals of a text.
ghost use Rattle.std.specs.Prelude.{All, IfErr, IfOk};
ghost use Rattle.goal_text.specs.Goals.{AreGoalsOf, AreTrees, HasCause};
ghost use Rattle.sv_token.specs.Result.{IfRefused};
ghost use Rattle.svex_arena.specs.Arenas.{Extends};
ghost use Rattle.svtv_table.specs.Binding.{HasWidth};

use crate::Goal;
use crate::lowering::lowered;
use goal_tree::{GoalTree, parse_goals};
use items::Items;
use std::alloc::Global;
use sv_outside::TextErr;
use sv_token::{end_of, lex};
use svex_arena::Arena;
use svtv_table::{Sample, VarDecl};

// The trees that a text spells.
fn trees_of(alloc: Global, file: usize, text: &[u8]) -> Result<Items<GoalTree>, TextErr>
    ensures { AreTrees file text.now result }
{
    match lex(alloc, file, text) {
        Ok(tokens) => parse_goals(alloc, tokens.as_slice(), end_of(file, text)),
        Err(e) => Err(e),
    }
}

/// The goals of the text of the file with that number, over the variables and samples of a table: for each hypothesis and claim
/// the node of its truth.
///
/// A text is cut into tokens as source text is (E1, E2, E4), and has the form of a file of goals (E9, E25, E33). No two goals have
/// one name (E34, at the second). Hypotheses name variables, claims variables and samples, each an unsigned vector `[w-1:0]`
/// (E2, E12, E14, E15, E16, E23, E25). Where the text is refused, the arena may have grown.
pub fn read_goals(
    alloc: Global,
    file: usize,
    text: &[u8],
    vars: &[VarDecl],
    samples: &[Sample],
    arena: &mut Arena,
) -> Result<Items<Goal>, TextErr>
    requires vars { All (λ var. HasWidth var.width) vars.now }
    requires samples { All (λ sample. HasWidth sample.width) samples.now }

    // Earlier nodes keep number and shape.
    ensures stays { Extends arena.old arena.new }

    // Nothing stands against the text, and the nodes have the truths of its hypotheses and claims.
    ensures goals { IfOk result (λ goals. AreGoalsOf file text.now vars.now samples.now arena.new goals) }

    // A refusal has its cause in the text.
    ensures cause { IfErr result (IfRefused (HasCause file text.now vars.now samples.now)) }
{
    match trees_of(alloc, file, text) {
        Ok(trees) => lowered(alloc, arena, trees.as_slice(), vars, samples),
        Err(e) => Err(e),
    }
}
