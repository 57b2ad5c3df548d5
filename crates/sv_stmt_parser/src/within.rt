// What stands in a construct that holds its own kind, whether it is a statement or a generate construct: the parts of a block up
// to its `end`, the body of a condition and the one behind `else`, and the head and the body of a loop. A rule is a value that
// knows how to read what it holds, so that each of these is read, and proved, once for all kinds.
ghost use Rattle.std.specs.Prelude.{◌≡◌, Option, is_some};
ghost use Rattle.sv_cursor.specs.Parsers as parser;
ghost use Rattle.sv_cursor.specs.Parsers.{Reads, told};
ghost use Rattle.sv_outside.specs.declared.text.Token.{Token};
ghost use Rattle.sv_type_parser.specs.Lists as list;
ghost use Rattle.sv_stmt_parser.specs.Within as spec;

use crate::labels::{block_label, end_label};
use items::{Boxed, Items, both};
use std::alloc::Global;
use sv_cursor::{Cursor, Keyword, ParseErr};
use sv_outside::Place;
use sv_tree::Word;
use sv_type_parser::keep;

/// Rules that read one part behind the other.
pub trait Nested<A: Drop> {
    /// What is told of the first token of a part.
    type Opener;

    /// Whether parts can be read.
    ghost ready: { Self → Type 0 };

    ghost parser: { Self → parser.Parser A };

    ghost test: { Token → Option Self.Opener };

    /// Whether a part comes next.
    fn comes(tokens: &Cursor<'_>) -> bool
        ensures { result ≡ is_some (told test tokens.now) };

    /// Reads one. The cursor stands behind it then.
    fn part(&self, tokens: &mut Cursor<'_>) -> Result<A, ParseErr>
        requires { ready self.now }
        ensures { Reads (parser self.now tokens.old) result tokens.new };
}

/// Rules that read what stands behind the head of a condition or of a loop.
pub trait Bodied {
    /// What stands behind `for`, up to the `)`.
    type Head: Drop;

    /// What stands behind a head, or behind `else`.
    type Body: Drop;

    /// Whether a body can be read.
    ghost ready: { Self → Type 0 };

    ghost heading: { parser.Parser Self.Head };

    ghost inner: { Self → parser.Parser Self.Body };

    fn head(alloc: Global, tokens: &mut Cursor<'_>) -> Result<Self::Head, ParseErr>
        ensures { Reads (heading tokens.old) result tokens.new };

    fn body(&self, tokens: &mut Cursor<'_>) -> Result<Boxed<Self::Body>, ParseErr>
        requires { ready self.now }
        ensures { Reads (inner self.now tokens.old) result tokens.new };
}

// ---- blocks

/// Parts, as long as one begins.
pub fn parts<A: Drop, R: Nested<A>>(
    alloc: Global,
    tokens: &mut Cursor<'_>,
    rules: &R,
) -> Result<Items<A>, ParseErr>
    requires { R.ready rules.now }
    ensures { Reads (list.while_told R.test (R.parser rules.now) tokens.old) result tokens.new }
{
    let mut found = Items::new(alloc);
    for _turn in 0..tokens.left() {
        if !R::comes(tokens) {
            return Ok(found);
        }
        let part = rules.part(tokens);
        keep(&mut found, part)?;
    }
    Ok(found)
}

fn block_rest<A: Drop, R: Nested<A>>(
    alloc: Global,
    tokens: &mut Cursor<'_>,
    rules: &R,
    name: &Option<Word>,
) -> Result<(Items<A>, Option<Word>), ParseErr>
    requires { R.ready rules.now }
    ensures { Reads (spec.block_rest R.test (R.parser rules.now) name.now tokens.old) result tokens.new }
{
    let all = parts(alloc, tokens, rules)?;
    tokens.keyword(Keyword::End)?;
    both(all, end_label(alloc, tokens, name))
}

/// What a block is made of: its place, its name, its parts, and its label.
pub type BlockParts<A> = (Place, (Option<Word>, (Items<A>, Option<Word>)));

/// A block, from its `begin` to the label of its `end`.
pub fn block<A: Drop, R: Nested<A>>(
    alloc: Global,
    tokens: &mut Cursor<'_>,
    rules: &R,
) -> Result<BlockParts<A>, ParseErr>
    requires { R.ready rules.now }
    ensures { Reads (spec.block R.test (R.parser rules.now) tokens.old) result tokens.new }
{
    let place = tokens.keyword(Keyword::Begin)?;
    let name = block_label(alloc, tokens)?;
    let rest = block_rest(alloc, tokens, rules, &name);
    let named = both(name, rest)?;
    Ok((place, named))
}

// ---- conditions and loops

#[tactic(auto, unfolding(crate::specs::Within::maybe_else))]
fn maybe_else<R: Bodied>(
    tokens: &mut Cursor<'_>,
    rules: &R,
) -> Result<Option<Boxed<R::Body>>, ParseErr>
    requires { R.ready rules.now }
    ensures { Reads (spec.maybe_else (R.inner rules.now) tokens.old) result tokens.new }
{
    match tokens.peek_keyword(Keyword::Else) {
        Some(_) => {
            tokens.keyword(Keyword::Else)?;
            rules.body(tokens).map(Some)
        }
        None => Ok(None),
    }
}

/// The body of a condition, and the one behind `else`.
pub fn branches<R: Bodied>(
    tokens: &mut Cursor<'_>,
    rules: &R,
) -> Result<(Boxed<R::Body>, Option<Boxed<R::Body>>), ParseErr>
    requires { R.ready rules.now }
    ensures { Reads (spec.branches (R.inner rules.now) tokens.old) result tokens.new }
{
    let first = rules.body(tokens)?;
    both(first, maybe_else(tokens, rules))
}

/// A loop: its place, its head, and its body.
pub fn counted<R: Bodied>(
    alloc: Global,
    tokens: &mut Cursor<'_>,
    rules: &R,
) -> Result<(Place, (R::Head, Boxed<R::Body>)), ParseErr>
    requires { R.ready rules.now }
    ensures { Reads (spec.counted R.heading (R.inner rules.now) tokens.old) result tokens.new }
{
    let place = tokens.keyword(Keyword::For)?;
    let head = R::head(alloc, tokens)?;
    let whole = both(head, rules.body(tokens))?;
    Ok((place, whole))
}
