// The tokens that are left of a file of goals. The words of goals are no keywords of the source language, so they are compared
// as texts here, where the cursor of the source would only say that they are identifiers. Marks, names and expressions are read
// by that cursor and its reader, made at the place where this one stands.
ghost use Rattle.std.specs.Prelude.{◌≡◌, is_some, length};
ghost use Rattle.goal_tree.specs.Reading as spec;
ghost use Rattle.sv_cursor.specs.Parsers as parser;
ghost use Rattle.sv_cursor.specs.Parsers.{Reads, told};
ghost use Rattle.sv_cursor.specs.Tests as test;

use std::alloc::Global;
use std::marker::Model;
use sv_cursor::{Cursor, Mark, ParseErr};
use sv_expr_reader::expr;
use sv_outside::{Kind, Place, Token};
use sv_tree::{Expr, Word};

// How many expressions may hold a token (this project's rule).
const MOST_NESTING: u8 = 200;

/// The tokens that are left.
#[derive(Drop)]
pub struct Reader<'a> {
    rest: &'a [Token],
}

impl<'a> Model for Reader<'a> {
    ghost use Rattle.std.specs.Prelude.{List};
    ghost use Rattle.std.specs.Coded.{coded_list};
    ghost use Rattle.sv_outside.specs.declared.text.Token.{Token};
    ghost use Rattle.sv_cursor.specs.Codes.{token_code};

    ghost Value = { List Token };

    ghost coded = { coded_list token_code };

    ghost view = { λ a. a.rest.now };
}

fn same(a: &[u8], b: &[u8]) -> bool
    ensures { result ≡ spec.same a.now b.now }
{
    a == b
}

fn is_word(token: &Token, text: &[u8]) -> bool
    ensures { result ≡ spec.is_word_of text.now token.now.kind token.now.text }
{
    match token.kind {
        Kind::Word => same(token.text.bytes(), text),
        _ => false,
    }
}

impl<'a> Reader<'a> {
    /// Before the first of these tokens.
    pub fn new(rest: &'a [Token]) -> Reader<'a>
        ensures { result ≡ rest.now }
    {
        Reader { rest }
    }

    /// How many tokens are left.
    pub fn left(&self) -> usize
        ensures { result ≡ length self.now }
    {
        self.rest.len()
    }

    /// The refusal of what stands here: no rule reads it.
    pub fn refuse(&self) -> ParseErr
        ensures { result ≡ ParseErr.Syntax (length self.now) }
    {
        ParseErr::Syntax(self.left())
    }

    // Goes behind the first token, where there is one.
    fn skip(&mut self)
        ensures { self.new ≡ parser.next self.old }
    {
        if let [_, rest @ ..] = self.rest {
            self.rest = rest;
        }
    }

    /// The place of the word, where it comes next.
    #[tactic(auto, unfolding(crate::specs::Reading::word_test))]
    pub fn peek_word(&self, text: &[u8]) -> Option<Place>
        ensures { result ≡ told (spec.word_test text.now) self.now }
    {
        match self.rest {
            [first, ..] if is_word(first, text) => Some(first.place),
            _ => None,
        }
    }

    /// Whether the word comes next.
    pub fn sees(&self, text: &[u8]) -> bool
        ensures { result ≡ is_some (told (spec.word_test text.now) self.now) }
    {
        self.peek_word(text).is_some()
    }

    /// The place of the word, which has to come next (`Syntax` where it does not).
    #[tactic(auto, unfolding(sv_cursor::specs::Parsers::token, crate::specs::Reading::word_test))]
    pub fn word(&mut self, text: &[u8]) -> Result<Place, ParseErr>
        ensures { Reads (parser.token (spec.word_test text.now) self.old) result self.new }
    {
        match self.rest {
            [first, ..] if is_word(first, text) => {
                let place = first.place;
                self.skip();
                Ok(place)
            }
            _ => Err(self.refuse()),
        }
    }

    /// The place of the mark, which has to come next (`Syntax` where it does not).
    #[tactic(auto, using(crate::proofs::Skipped::goes_behind))]
    pub fn mark(&mut self, name: Mark) -> Result<Place, ParseErr>
        ensures { Reads (test.mark name self.old) result self.new }
    {
        let place = Cursor::new(self.rest).mark(name)?;
        self.skip();
        Ok(place)
    }

    /// The identifier that has to come next: `Syntax` where none does, `Memory` where there is no room for it.
    #[tactic(auto, using(crate::proofs::Skipped::goes_behind))]
    pub fn name(&mut self, alloc: Global) -> Result<Word, ParseErr>
        ensures { Reads (parser.token test.id_test self.old) result self.new }
    {
        let word = Cursor::new(self.rest).id(alloc)?;
        self.skip();
        Ok(word)
    }

    /// An expression (A.8.3), in which at most 200 expressions hold a token.
    pub fn expression(&mut self, alloc: Global) -> Result<Expr, ParseErr>
        ensures { Reads (spec.expression self.old) result self.new }
    {
        let mut cursor = Cursor::new(self.rest);
        let tree = expr(alloc, &mut cursor, MOST_NESTING + 1, 0)?;
        self.rest = last(self.rest, cursor.left());
        Ok(tree)
    }
}

// The last so many tokens.
fn last(tokens: &[Token], count: usize) -> &[Token]
    ensures { result.now ≡ spec.last count tokens.now }
{
    &tokens[tokens.len().saturating_sub(count)..]
}
