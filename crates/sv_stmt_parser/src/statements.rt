// Statements are read: assignments, blocks, branches and loops (IEEE 1800-2017, A.6). The rules that hold statements take the
// reader of those as a parameter, so that each is proved by itself, and `stmt` closes the cycle with one depth less. Arms
// before the default, the default and the arms behind it are read one after another and then joined, so that a second default
// is refused at its word.
ghost use Rattle.std.specs.Prelude.{◌≡◌, ◌∷◌, ◌++◌, IfOk};
ghost use Rattle.sv_cursor.specs.Parsers as parser;
ghost use Rattle.sv_cursor.specs.Parsers.{Reads, ◌⊗◌, told};
ghost use Rattle.sv_cursor.specs.Tests as test;
ghost use Rattle.sv_expr_words.specs.Signs.{opener_test};
ghost use Rattle.sv_word_parser.specs.Combined.{◌▸◌, ◌◂◌, sign_of, sort_test};
ghost use Rattle.sv_type_parser.specs.Forms as forms;
ghost use Rattle.sv_type_parser.specs.Lists.{Nests};
ghost use Rattle.sv_stmt_parser.specs.Loops as loops;
ghost use Rattle.sv_stmt_parser.specs.Stmts as spec;
ghost use Rattle.sv_stmt_parser.specs.Within as within;
ghost use Rattle.sv_word_parser.specs.Words as words;

use crate::heads::{LoopHead, loop_head};
use crate::lvalues::lvalue;
use crate::tails::BranchTail;
use crate::within::{Bodied, Nested, block, branches, counted, parts};
use items::{Boxed, Items, both};
use std::alloc::{AllocError, Global};
use sv_cursor::{Cursor, Keyword, Mark, ParseErr, Sort};
use sv_expr_words::{Opener, begins};
use sv_outside::Place;
use sv_tree::{Arm, AssignMark, Expr, Stmt};
use sv_type_parser::{boxed, expression, expressions, with_first};
use sv_word_parser::{StmtOpener, maybe_uniq, take_case, taken};

// ---- assignments

fn assign_of(mark: Mark) -> Option<AssignMark>
    ensures { result ≡ words.assign_by_mark mark }
{
    match mark {
        Mark::Assign => Some(AssignMark::Blocking),
        Mark::LessEqual => Some(AssignMark::Nonblocking),
        _ => None,
    }
}

fn assign_of_sort(sort: Sort) -> Option<AssignMark>
    ensures { result ≡ sign_of words.assign_by_mark sort }
{
    match sort {
        Sort::Mark(mark) => assign_of(mark),
        _ => None,
    }
}

fn with_place(mark: Option<AssignMark>, place: Place) -> Option<(AssignMark, Place)>
    ensures { result ≡ spec.with_place mark place }
{
    match mark {
        Some(mark) => Some((mark, place)),
        None => None,
    }
}

// The mark of an assignment that comes next, and its place.
#[tactic(auto, using(crate::proofs::Firsts::assign_first, crate::proofs::Firsts::no_assign))]
fn assign_next(tokens: &Cursor<'_>) -> Option<(AssignMark, Place)>
    ensures { result ≡ told spec.assign_test tokens.now }
{
    match tokens.place() {
        Some(place) => with_place(assign_of_sort(tokens.sort()), place),
        None => None,
    }
}

#[tactic(auto, unfolding(sv_cursor::specs::Parsers::token))]
fn take_assign(tokens: &mut Cursor<'_>) -> Result<(AssignMark, Place), ParseErr>
    ensures { Reads (parser.token spec.assign_test tokens.old) result tokens.new }
{
    let mark = assign_next(tokens);
    taken(tokens, mark)
}

// The mark of an assignment, its place, and what is assigned.
fn assigned(alloc: Global, tokens: &mut Cursor<'_>) -> Result<((AssignMark, Place), Expr), ParseErr>
    ensures { Reads ((parser.token spec.assign_test ⊗ (forms.expression ◂ test.mark Mark.Semicolon)) tokens.old) result tokens.new }
{
    let mark = take_assign(tokens)?;
    let value = expression(alloc, tokens)?;
    tokens.mark(Mark::Semicolon)?;
    Ok((mark, value))
}

#[tactic(auto, unfolding(crate::specs::Stmts::assign))]
fn assign(alloc: Global, tokens: &mut Cursor<'_>) -> Result<Stmt, ParseErr>
    ensures { Reads (spec.assign tokens.old) result tokens.new }
{
    let target = lvalue(alloc, tokens)?;
    let ((mark, place), value) = assigned(alloc, tokens)?;
    Ok(Stmt::Assign(target, mark, place, value))
}

#[tactic(auto, unfolding(crate::specs::Stmts::empty))]
fn empty(tokens: &mut Cursor<'_>) -> Result<Stmt, ParseErr>
    ensures { Reads (spec.empty tokens.old) result tokens.new }
{
    tokens.mark(Mark::Semicolon)?;
    Ok(Stmt::Empty)
}

// ---- what begins a statement

fn stmt_of_word(word: Keyword) -> Option<StmtOpener>
    ensures { result ≡ words.stmt_by_word word }
{
    match word {
        Keyword::Begin => Some(StmtOpener::Block),
        Keyword::Unique => Some(StmtOpener::Branch),
        Keyword::Unique0 => Some(StmtOpener::Branch),
        Keyword::Priority => Some(StmtOpener::Branch),
        Keyword::If => Some(StmtOpener::Branch),
        Keyword::Case => Some(StmtOpener::Branch),
        Keyword::Casez => Some(StmtOpener::Branch),
        Keyword::For => Some(StmtOpener::For),
        _ => None,
    }
}

fn stmt_of_mark(mark: Mark) -> Option<StmtOpener>
    ensures { result ≡ words.stmt_by_mark mark }
{
    match mark {
        Mark::Semicolon => Some(StmtOpener::Empty),
        Mark::LeftBrace => Some(StmtOpener::Target),
        _ => None,
    }
}

fn stmt_of(sort: Sort) -> Option<StmtOpener>
    ensures { result ≡ words.stmt_by_sort sort }
{
    match sort {
        Sort::Keyword(word) => stmt_of_word(word),
        Sort::Mark(mark) => stmt_of_mark(mark),
        Sort::Id => Some(StmtOpener::Target),
        _ => None,
    }
}

#[tactic(auto, using(sv_word_parser::proofs::Firsts::sort_first))]
fn stmt_next(tokens: &Cursor<'_>) -> Option<StmtOpener>
    ensures { result ≡ told (sort_test words.stmt_by_sort) tokens.now }
{
    stmt_of(tokens.sort())
}

// ---- arms

/// Whether something is there.
pub fn is_given(place: Option<Place>) -> bool
    ensures { result ≡ spec.is_given place }
{
    match place {
        Some(_) => true,
        None => false,
    }
}

fn maybe_colon(tokens: &mut Cursor<'_>) -> Result<Option<Place>, ParseErr>
    ensures { Reads (parser.maybe_read (test.mark_test Mark.Colon) (test.mark Mark.Colon) tokens.old) result tokens.new }
{
    match tokens.peek_mark(Mark::Colon) {
        Some(_) => tokens.mark(Mark::Colon).map(Some),
        None => Ok(None),
    }
}

// The arms before the default, the default, and those behind it.
fn joined(
    alloc: Global,
    before: Items<Arm>,
    default: Arm,
    behind: Items<Arm>,
) -> Result<Items<Arm>, AllocError>
    ensures { IfOk result (λ all. all ≡ before ++ (default ∷ behind)) }
{
    let rest = with_first(alloc, default, behind)?;
    let mut all = before;
    all.append(rest)?;
    Ok(all)
}

/// The rules of statements, over a reader of the statements in a statement.
#[derive(Drop)]
struct Statements<F> {
    alloc: Global,
    /// How many statements may hold a token of a part.
    depth: u8,
    /// Reads a statement to a depth.
    stmt: F,
}

impl<F: Fn(Global, &mut Cursor<'_>, u8) -> Result<Stmt, ParseErr>> Nested<Stmt> for Statements<F> {
    type Opener = StmtOpener;

    ghost ready = { λ rules. Nests (spec.stmt rules.depth) rules.depth (F.pre rules.stmt) (F.post rules.stmt) };

    ghost parser = { λ rules. spec.stmt rules.depth };

    ghost test = { sort_test words.stmt_by_sort };

    fn comes(tokens: &Cursor<'_>) -> bool {
        stmt_next(tokens).is_some()
    }

    fn part(&self, tokens: &mut Cursor<'_>) -> Result<Stmt, ParseErr> {
        (self.stmt)(self.alloc, tokens, self.depth)
    }
}

impl<F: Fn(Global, &mut Cursor<'_>, u8) -> Result<Stmt, ParseErr>> Bodied for Statements<F> {
    type Head = LoopHead;

    type Body = Stmt;

    ghost ready = { λ rules. Nests (spec.stmt rules.depth) rules.depth (F.pre rules.stmt) (F.post rules.stmt) };

    ghost heading = { loops.loop_head };

    ghost inner = { λ rules. spec.stmt rules.depth };

    fn head(alloc: Global, tokens: &mut Cursor<'_>) -> Result<LoopHead, ParseErr> {
        loop_head(alloc, tokens)
    }

    fn body(&self, tokens: &mut Cursor<'_>) -> Result<Boxed<Stmt>, ParseErr> {
        let part: Result<Stmt, ParseErr> = self.part(tokens);
        boxed(self.alloc, part)
    }
}

// Arms that are no default.
impl<F: Fn(Global, &mut Cursor<'_>, u8) -> Result<Stmt, ParseErr>> Nested<Arm> for Statements<F> {
    type Opener = Opener;

    ghost ready = { λ rules. Nests (spec.stmt rules.depth) rules.depth (F.pre rules.stmt) (F.post rules.stmt) };

    ghost parser = { λ rules. spec.labelled (spec.stmt rules.depth) };

    ghost test = { opener_test };

    fn comes(tokens: &Cursor<'_>) -> bool {
        begins(tokens).is_some()
    }

    #[tactic(auto, unfolding(crate::specs::Stmts::labelled))]
    fn part(&self, tokens: &mut Cursor<'_>) -> Result<Arm, ParseErr> {
        let labels = expressions(self.alloc, tokens)?;
        tokens.mark(Mark::Colon)?;
        let body = self.body(tokens)?;
        Ok(Arm::Labels(labels, body))
    }
}

impl<F: Fn(Global, &mut Cursor<'_>, u8) -> Result<Stmt, ParseErr>> Statements<F> {
    // ---- blocks

    #[tactic(auto, unfolding(crate::specs::Stmts::block))]
    fn block(&self, tokens: &mut Cursor<'_>) -> Result<Stmt, ParseErr>
        requires { Nests (spec.stmt self.now.depth) self.now.depth (F.pre self.now.stmt) (F.post self.now.stmt) }
        ensures { Reads (spec.block (spec.stmt self.now.depth) tokens.old) result tokens.new }
    {
        let (place, (name, (all, label))) = block(self.alloc, tokens, self)?;
        Ok(Stmt::Block(place, name, all, label))
    }

    // ---- branches

    // From the `)` behind the condition on.
    fn behind_condition(
        &self,
        tokens: &mut Cursor<'_>,
    ) -> Result<(Boxed<Stmt>, Option<Boxed<Stmt>>), ParseErr>
        requires { Nests (spec.stmt self.now.depth) self.now.depth (F.pre self.now.stmt) (F.post self.now.stmt) }
        ensures { Reads ((test.mark Mark.RightParen ▸ within.branches (spec.stmt self.now.depth)) tokens.old) result tokens.new }
    {
        tokens.mark(Mark::RightParen)?;
        branches(tokens, self)
    }

    #[tactic(auto, unfolding(crate::specs::Stmts::conditional))]
    fn conditional(&self, tokens: &mut Cursor<'_>) -> Result<BranchTail, ParseErr>
        requires { Nests (spec.stmt self.now.depth) self.now.depth (F.pre self.now.stmt) (F.post self.now.stmt) }
        ensures { Reads (spec.conditional (spec.stmt self.now.depth) tokens.old) result tokens.new }
    {
        tokens.keyword(Keyword::If)?;
        tokens.mark(Mark::LeftParen)?;
        let condition = expression(self.alloc, tokens)?;
        let (first, second) = self.behind_condition(tokens)?;
        Ok(BranchTail::If(condition, first, second))
    }

    #[tactic(auto, unfolding(crate::specs::Stmts::all_labelled, sv_type_parser::specs::Lists::while_told))]
    fn all_labelled(&self, tokens: &mut Cursor<'_>) -> Result<Items<Arm>, ParseErr>
        requires { Nests (spec.stmt self.now.depth) self.now.depth (F.pre self.now.stmt) (F.post self.now.stmt) }
        ensures { Reads (spec.all_labelled (spec.stmt self.now.depth) tokens.old) result tokens.new }
    {
        parts(self.alloc, tokens, self)
    }

    #[tactic(auto, unfolding(crate::specs::Stmts::default, crate::specs::Stmts::from_default))]
    fn from_default(&self, tokens: &mut Cursor<'_>) -> Result<(Arm, Items<Arm>), ParseErr>
        requires { Nests (spec.stmt self.now.depth) self.now.depth (F.pre self.now.stmt) (F.post self.now.stmt) }
        ensures { Reads (spec.from_default (spec.stmt self.now.depth) tokens.old) result tokens.new }
    {
        tokens.keyword(Keyword::Default)?;
        let colon = maybe_colon(tokens)?;
        let body = self.body(tokens)?;
        let default = Arm::Default(is_given(colon), body);
        both(default, self.all_labelled(tokens))
    }

    fn maybe_default(&self, tokens: &mut Cursor<'_>) -> Result<Option<(Arm, Items<Arm>)>, ParseErr>
        requires { Nests (spec.stmt self.now.depth) self.now.depth (F.pre self.now.stmt) (F.post self.now.stmt) }
        ensures { Reads (parser.maybe_read (test.keyword_test Keyword.Default) (spec.from_default (spec.stmt self.now.depth)) tokens.old) result tokens.new }
    {
        match tokens.peek_keyword(Keyword::Default) {
            Some(_) => self.from_default(tokens).map(Some),
            None => Ok(None),
        }
    }

    fn behind_labelled(
        &self,
        tokens: &mut Cursor<'_>,
        before: &[Arm],
    ) -> Result<Option<(Arm, Items<Arm>)>, ParseErr>
        requires { Nests (spec.stmt self.now.depth) self.now.depth (F.pre self.now.stmt) (F.post self.now.stmt) }
        ensures { Reads (spec.behind_labelled (spec.stmt self.now.depth) before.now tokens.old) result tokens.new }
    {
        match before {
            [] => self.from_default(tokens).map(Some),
            [_, ..] => self.maybe_default(tokens),
        }
    }

    #[tactic(auto, unfolding(crate::specs::Stmts::arms))]
    fn arms(&self, tokens: &mut Cursor<'_>) -> Result<Items<Arm>, ParseErr>
        requires { Nests (spec.stmt self.now.depth) self.now.depth (F.pre self.now.stmt) (F.post self.now.stmt) }
        ensures { Reads (spec.arms (spec.stmt self.now.depth) tokens.old) result tokens.new }
    {
        let before = self.all_labelled(tokens)?;
        match self.behind_labelled(tokens, before.as_slice())? {
            Some((default, behind)) => {
                let all = joined(self.alloc, before, default, behind)?;
                Ok(all)
            }
            None => Ok(before),
        }
    }

    // From the `)` behind what is compared on.
    fn behind_compared(&self, tokens: &mut Cursor<'_>) -> Result<Items<Arm>, ParseErr>
        requires { Nests (spec.stmt self.now.depth) self.now.depth (F.pre self.now.stmt) (F.post self.now.stmt) }
        ensures { Reads ((test.mark Mark.RightParen ▸ (spec.arms (spec.stmt self.now.depth) ◂ test.keyword Keyword.Endcase)) tokens.old) result tokens.new }
    {
        tokens.mark(Mark::RightParen)?;
        let all = self.arms(tokens)?;
        tokens.keyword(Keyword::Endcase)?;
        Ok(all)
    }

    #[tactic(auto, unfolding(crate::specs::Stmts::choice))]
    fn choice(&self, tokens: &mut Cursor<'_>) -> Result<BranchTail, ParseErr>
        requires { Nests (spec.stmt self.now.depth) self.now.depth (F.pre self.now.stmt) (F.post self.now.stmt) }
        ensures { Reads (spec.choice (spec.stmt self.now.depth) tokens.old) result tokens.new }
    {
        let word = take_case(tokens)?;
        tokens.mark(Mark::LeftParen)?;
        let value = expression(self.alloc, tokens)?;
        let all = self.behind_compared(tokens)?;
        Ok(BranchTail::Case(word, value, all))
    }

    #[tactic(auto, unfolding(crate::specs::Stmts::branched))]
    fn branched(&self, tokens: &mut Cursor<'_>) -> Result<BranchTail, ParseErr>
        requires { Nests (spec.stmt self.now.depth) self.now.depth (F.pre self.now.stmt) (F.post self.now.stmt) }
        ensures { Reads (spec.branched (spec.stmt self.now.depth) tokens.old) result tokens.new }
    {
        match tokens.peek_keyword(Keyword::If) {
            Some(_) => self.conditional(tokens),
            None => self.choice(tokens),
        }
    }

    #[tactic(auto, unfolding(crate::specs::Stmts::branch))]
    fn branch(&self, tokens: &mut Cursor<'_>) -> Result<Stmt, ParseErr>
        requires { Nests (spec.stmt self.now.depth) self.now.depth (F.pre self.now.stmt) (F.post self.now.stmt) }
        ensures { Reads (spec.branch (spec.stmt self.now.depth) tokens.old) result tokens.new }
    {
        let uniq = maybe_uniq(tokens)?;
        match self.branched(tokens)? {
            BranchTail::If(condition, first, second) => {
                Ok(Stmt::If(uniq, condition, first, second))
            }
            BranchTail::Case(word, value, all) => Ok(Stmt::Case(uniq, word, value, all)),
        }
    }

    // ---- loops

    fn counted(&self, tokens: &mut Cursor<'_>) -> Result<Stmt, ParseErr>
        requires { Nests (spec.stmt self.now.depth) self.now.depth (F.pre self.now.stmt) (F.post self.now.stmt) }
        ensures { Reads (spec.loop (spec.stmt self.now.depth) tokens.old) result tokens.new }
    {
        let (place, (head, body)) = counted(self.alloc, tokens, self)?;
        let (word, (variable, (start, (condition, step)))) = head;
        Ok(Stmt::For(place, word, variable, start, condition, step, body))
    }

    // ---- a statement

    fn stmt_for(&self, tokens: &mut Cursor<'_>, opener: StmtOpener) -> Result<Stmt, ParseErr>
        requires { Nests (spec.stmt self.now.depth) self.now.depth (F.pre self.now.stmt) (F.post self.now.stmt) }
        ensures { Reads (spec.stmt_for (spec.stmt self.now.depth) opener tokens.old) result tokens.new }
    {
        match opener {
            StmtOpener::Empty => empty(tokens),
            StmtOpener::Block => self.block(tokens),
            StmtOpener::Branch => self.branch(tokens),
            StmtOpener::For => self.counted(tokens),
            StmtOpener::Target => assign(self.alloc, tokens),
        }
    }

    #[tactic(auto, unfolding(crate::specs::Stmts::stmt_level))]
    fn level(&self, tokens: &mut Cursor<'_>) -> Result<Stmt, ParseErr>
        requires { Nests (spec.stmt self.now.depth) self.now.depth (F.pre self.now.stmt) (F.post self.now.stmt) }
        ensures { Reads (spec.stmt_level (spec.stmt self.now.depth) tokens.old) result tokens.new }
    {
        match stmt_next(tokens) {
            Some(opener) => self.stmt_for(tokens, opener),
            None => Err(tokens.refuse()),
        }
    }
}

/// A statement (A.6.4, statement_or_null), of which at most `depth` hold a token. The cursor stands behind it then.
pub fn stmt(alloc: Global, tokens: &mut Cursor<'_>, depth: u8) -> Result<Stmt, ParseErr>
    ensures { Reads (spec.stmt depth tokens.old) result tokens.new }
{
    if depth == 0 {
        return Err(tokens.too_deep());
    }
    Statements {
        alloc,
        depth: depth - 1,
        stmt,
    }
    .level(tokens)
}
