// A cursor over tokens, with the sort of the next one beside it. A token is sorted once, when the cursor comes to stand before
// it, however many rules look at it then. Refusals are counted in tokens that are left, not from the front, so that a rule says
// the same of its tokens whatever stands before them.
ghost use Rattle.std.specs.Prelude.{◌≡◌, length, IfOk};
ghost use Rattle.sv_cursor.specs.Parsers as spec;
ghost use Rattle.sv_cursor.specs.Parsers.{Reads};
ghost use Rattle.sv_cursor.specs.Tests as test;
ghost use Rattle.sv_cursor.specs.Sorts.{sort};

use crate::error::ParseErr;
use crate::sort::{Keyword, Mark, Sort};
use crate::sorts::sort_of;
use std::alloc::Global;
use std::marker::Model;
use sv_outside::{Name, Place, Token};
use sv_tree::{SystemName, Word};

/// The tokens that are left, and the sort of the first.
#[derive(Drop)]
pub struct Cursor<'a> {
    rest: &'a [Token],
    sort: Sort,
}

impl<'a> Model for Cursor<'a> {
    ghost use Rattle.std.specs.Prelude.{List, ◌≡◌};
    ghost use Rattle.std.specs.Coded.{coded_list};
    ghost use Rattle.sv_outside.specs.declared.text.Token.{Token};
    ghost use Rattle.sv_cursor.specs.Codes.{token_code};
    ghost use Rattle.sv_cursor.specs.Tests.{first_sort};

    ghost Value = { List Token };

    ghost coded = { coded_list token_code };

    ghost view = { λ a. a.rest.now };

    ghost invariant = { λ a. a.sort ≡ first_sort a.rest.now };
}

fn first_sort(rest: &[Token]) -> Sort
    ensures { result ≡ test.first_sort rest.now }
{
    match rest {
        [] => Sort::Other,
        [first, ..] => sort_of(first),
    }
}

fn same_mark(a: Mark, b: Mark) -> bool
    ensures { result ≡ test.same_mark a b }
{
    a == b
}

fn same_keyword(a: Keyword, b: Keyword) -> bool
    ensures { result ≡ test.same_keyword a b }
{
    a == b
}

fn is_mark(name: Mark, sort: Sort) -> bool
    ensures { result ≡ test.is_mark name sort }
{
    match sort {
        Sort::Mark(other) => same_mark(other, name),
        _ => false,
    }
}

fn is_keyword(word: Keyword, sort: Sort) -> bool
    ensures { result ≡ test.is_keyword word sort }
{
    match sort {
        Sort::Keyword(other) => same_keyword(other, word),
        _ => false,
    }
}

fn is_id(sort: Sort) -> bool
    ensures { result ≡ test.is_id_sort sort }
{
    matches!(sort, Sort::Id)
}

fn is_literal(sort: Sort) -> bool
    ensures { result ≡ test.is_literal_sort sort }
{
    matches!(sort, Sort::Literal)
}

impl<'a> Cursor<'a> {
    /// The cursor before the first of these tokens.
    pub fn new(rest: &'a [Token]) -> Cursor<'a>
        ensures { result ≡ rest.now }
    {
        Cursor {
            rest,
            sort: first_sort(rest),
        }
    }

    /// Another cursor at the same place.
    pub fn copy(&self) -> Cursor<'a>
        ensures { result ≡ self.now }
    {
        Cursor {
            rest: self.rest,
            sort: self.sort,
        }
    }

    /// How many tokens are left.
    pub fn left(&self) -> usize
        ensures { result ≡ length self.now }
    {
        self.rest.len()
    }

    /// The sort of the first token, and `Other` at the end.
    pub fn sort(&self) -> Sort
        ensures { result ≡ test.first_sort self.now }
    {
        self.sort
    }

    /// Goes behind the first token, where there is one.
    pub fn skip(&mut self)
        ensures { self.new ≡ spec.next self.old }
    {
        if let [_, rest @ ..] = self.rest {
            self.rest = rest;
            self.sort = first_sort(rest);
        }
    }

    /// The refusal of what stands here: no rule reads it.
    pub fn refuse(&self) -> ParseErr
        ensures { result ≡ ParseErr.Syntax (length self.now) }
    {
        ParseErr::Syntax(self.left())
    }

    /// The refusal of the token that stands here, since it lies too deep; at the end, that no rule reads what stands here.
    pub fn too_deep(&self) -> ParseErr
        ensures { result ≡ spec.deep_err self.now }
    {
        match self.rest {
            [] => ParseErr::Syntax(0),
            [_, ..] => ParseErr::TooDeep(self.left(), self.left()),
        }
    }

    /// The place of the mark, where it comes next.
    #[tactic(auto, unfolding(crate::specs::Tests::mark_test))]
    pub fn peek_mark(&self, name: Mark) -> Option<Place>
        ensures { result ≡ spec.told (test.mark_test name) self.now }
    {
        match self.rest {
            [first, ..] if is_mark(name, self.sort) => Some(first.place),
            _ => None,
        }
    }

    /// The place of the keyword, where it comes next.
    #[tactic(auto, unfolding(crate::specs::Tests::keyword_test))]
    pub fn peek_keyword(&self, word: Keyword) -> Option<Place>
        ensures { result ≡ spec.told (test.keyword_test word) self.now }
    {
        match self.rest {
            [first, ..] if is_keyword(word, self.sort) => Some(first.place),
            _ => None,
        }
    }

    /// The place of the first token, where there is one.
    #[tactic(auto, unfolding(crate::specs::Tests::place_test))]
    pub fn place(&self) -> Option<Place>
        ensures { result ≡ spec.told test.place_test self.now }
    {
        match self.rest {
            [first, ..] => Some(first.place),
            [] => None,
        }
    }

    // The place of the first token, where it is wanted (`Syntax` where it is not).
    #[tactic(auto, unfolding(crate::specs::Parsers::token))]
    fn place_if(&mut self, wanted: bool) -> Result<Place, ParseErr>
        ensures { Reads (test.place_if wanted self.old) result self.new }
    {
        match self.rest {
            [first, ..] if wanted => {
                let place = first.place;
                self.skip();
                Ok(place)
            }
            _ => Err(self.refuse()),
        }
    }

    /// The place of the mark, which has to come next (`Syntax` where it does not).
    #[tactic(auto, using(crate::proofs::Wanted::mark_reads))]
    pub fn mark(&mut self, name: Mark) -> Result<Place, ParseErr>
        ensures { Reads (test.mark name self.old) result self.new }
    {
        let wanted = is_mark(name, self.sort());
        self.place_if(wanted)
    }

    /// The place of the keyword, which has to come next (`Syntax` where it does not).
    #[tactic(auto, using(crate::proofs::Wanted::keyword_reads))]
    pub fn keyword(&mut self, word: Keyword) -> Result<Place, ParseErr>
        ensures { Reads (test.keyword word self.old) result self.new }
    {
        let wanted = is_keyword(word, self.sort());
        self.place_if(wanted)
    }

    // The first token as a word, where it is wanted: `Syntax` where it is not, `Memory` where there is no room for it.
    #[tactic(auto, unfolding(crate::specs::Parsers::token))]
    fn word_if(&mut self, alloc: Global, wanted: bool) -> Result<Word, ParseErr>
        ensures { Reads (test.word_if wanted self.old) result self.new }
    {
        match self.rest {
            [first, ..] if wanted => {
                let word = Word {
                    text: Name::new(alloc, first.text.bytes())?,
                    place: first.place,
                };
                self.skip();
                Ok(word)
            }
            _ => Err(self.refuse()),
        }
    }

    /// The identifier (A.9.3) that has to come next: `Syntax` where none does, `Memory` where there is no room for it.
    #[tactic(auto, using(crate::proofs::Wanted::id_reads))]
    pub fn id(&mut self, alloc: Global) -> Result<Word, ParseErr>
        ensures { Reads (spec.token test.id_test self.old) result self.new }
    {
        let wanted = is_id(self.sort());
        self.word_if(alloc, wanted)
    }

    /// The literal that has to come next: `Syntax` where none does, `Memory` where there is no room for it.
    #[tactic(auto, using(crate::proofs::Wanted::literal_reads))]
    pub fn literal(&mut self, alloc: Global) -> Result<Word, ParseErr>
        ensures { Reads (spec.token test.literal_test self.old) result self.new }
    {
        let wanted = is_literal(self.sort());
        self.word_if(alloc, wanted)
    }

    /// The system function whose name has to come next (`Syntax` where none does), and its place.
    #[tactic(auto, unfolding(crate::specs::Parsers::token, crate::specs::Tests::system_test))]
    pub fn system(&mut self) -> Result<(SystemName, Place), ParseErr>
        ensures { Reads (spec.token test.system_test self.old) result self.new }
    {
        match (self.rest, self.sort) {
            ([first, ..], Sort::System(name)) => {
                let place = first.place;
                self.skip();
                Ok((name, place))
            }
            _ => Err(self.refuse()),
        }
    }
}
