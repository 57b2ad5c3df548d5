// The form of a file of goals, read from left to right. Goals hold no goals, so that these are plain loops and no depth is
// needed but that of expressions. Each loop ends where its word does not come next, and has at most as many turns as tokens are
// left; what is left at the end is refused at the token that no rule reads.
ghost use Rattle.std.specs.Prelude.{◌≡◌, ◌∷◌, IfOk};
ghost use Rattle.goal_tree.specs.Reading as spec;
ghost use Rattle.sv_cursor.specs.Parsers.{Reads};

use crate::reader::Reader;
use crate::tree::GoalTree;
use items::{Items, both};
use std::alloc::{AllocError, Global};
use sv_cursor::{Mark, ParseErr};
use sv_tree::Expr;

// A part, and those that follow it.
fn with_first<A: Drop>(alloc: Global, first: A, more: Items<A>) -> Result<Items<A>, AllocError>
    ensures { IfOk result (λ all. all ≡ first ∷ more) }
{
    let mut all = Items::new(alloc);
    all.push(first)?;
    all.append(more)?;
    Ok(all)
}

// The word, an expression and a semicolon.
#[tactic(auto, unfolding(crate::specs::Reading::statement))]
fn statement(alloc: Global, tokens: &mut Reader<'_>, word: &[u8]) -> Result<Expr, ParseErr>
    ensures { Reads (spec.statement word.now tokens.old) result tokens.new }
{
    tokens.word(word)?;
    let inner = tokens.expression(alloc)?;
    let (inner, _) = both(inner, tokens.mark(Mark::Semicolon))?;
    Ok(inner)
}

// Statements of the word, as long as it comes.
fn statements(alloc: Global, tokens: &mut Reader<'_>, word: &[u8]) -> Result<Items<Expr>, ParseErr>
    ensures { Reads (spec.statements word.now tokens.old) result tokens.new }
{
    let mut found = Items::new(alloc);
    for _turn in 0..tokens.left() {
        if !tokens.sees(word) {
            return Ok(found);
        }
        let part = statement(alloc, tokens, word)?;
        found.push(part)?;
    }
    Ok(found)
}

// The same, and one at least.
#[tactic(auto, unfolding(crate::specs::Reading::some_statements, crate::specs::Reading::statements))]
fn some_statements(
    alloc: Global,
    tokens: &mut Reader<'_>,
    word: &[u8],
) -> Result<Items<Expr>, ParseErr>
    ensures { Reads (spec.some_statements word.now tokens.old) result tokens.new }
{
    let first = statement(alloc, tokens, word)?;
    let (first, more) = both(first, statements(alloc, tokens, word))?;
    let all = with_first(alloc, first, more)?;
    Ok(all)
}

// The hypotheses and the claims of a goal, up to the closing brace.
fn parts(alloc: Global, tokens: &mut Reader<'_>) -> Result<(Items<Expr>, Items<Expr>), ParseErr>
    ensures { Reads (spec.parts tokens.old) result tokens.new }
{
    let hyps = statements(alloc, tokens, b"hyp")?;
    let claims = some_statements(alloc, tokens, b"claim")?;
    tokens.mark(Mark::RightBrace)?;
    Ok((hyps, claims))
}

#[tactic(auto, unfolding(crate::specs::Reading::goal))]
fn goal(alloc: Global, tokens: &mut Reader<'_>) -> Result<GoalTree, ParseErr>
    ensures { Reads (spec.goal tokens.old) result tokens.new }
{
    tokens.word(b"goal")?;
    let name = tokens.name(alloc)?;
    tokens.mark(Mark::LeftBrace)?;
    let (hyps, claims) = parts(alloc, tokens)?;
    Ok(GoalTree { name, hyps, claims })
}

fn more_goals(alloc: Global, tokens: &mut Reader<'_>) -> Result<Items<GoalTree>, ParseErr>
    ensures { Reads (spec.more_goals tokens.old) result tokens.new }
{
    let mut found = Items::new(alloc);
    for _turn in 0..tokens.left() {
        if !tokens.sees(b"goal") {
            return Ok(found);
        }
        let part = goal(alloc, tokens)?;
        found.push(part)?;
    }
    Ok(found)
}

#[tactic(auto, unfolding(crate::specs::Reading::goals, crate::specs::Reading::more_goals))]
fn goals(alloc: Global, tokens: &mut Reader<'_>) -> Result<Items<GoalTree>, ParseErr>
    ensures { Reads (spec.goals tokens.old) result tokens.new }
{
    let first = goal(alloc, tokens)?;
    let (first, more) = both(first, more_goals(alloc, tokens))?;
    let all = with_first(alloc, first, more)?;
    Ok(all)
}

// The goals, where no token is left.
fn ended(tokens: &Reader<'_>, goals: Items<GoalTree>) -> Result<Items<GoalTree>, ParseErr>
    ensures { Reads (spec.ended goals tokens.now) result tokens.now }
{
    if tokens.left() == 0 {
        Ok(goals)
    } else {
        Err(tokens.refuse())
    }
}

/// A whole file of goals, up to the end of the tokens.
#[tactic(auto, unfolding(crate::specs::Reading::source))]
pub fn source(alloc: Global, tokens: &mut Reader<'_>) -> Result<Items<GoalTree>, ParseErr>
    ensures { Reads (spec.source tokens.old) result tokens.new }
{
    let goals = goals(alloc, tokens)?;
    ended(tokens, goals)
}
