// Targets, statements and blocks are written (A.6, A.8.5). What stands before the statements that a statement holds (the head
// of an `if`, of a case statement or of a loop, and labels) is written by functions of their own, so that the cycle of
// statements only puts heads and bodies one behind the other.
ghost use Rattle.std.specs.Prelude.{◌≡◌};
ghost use Rattle.sv_write.specs.Adds.{Adds};
ghost use Rattle.sv_write.specs.Exprs as exprs_spec;
ghost use Rattle.sv_write.specs.Forms as forms_spec;
ghost use Rattle.sv_write.specs.Stmts as spec;
ghost use Rattle.sv_write.specs.Writing as writing;
ghost use Rattle.sv_tree.specs.GrammarStmts as texts;

use crate::exprs::{expr, expr_and_mark, exprs, in_parens, selects};
use crate::forms::whole_word;
use crate::lexeme::Writer;
use crate::part::{Part, each, maybe};
use items::Boxed;
use sv_tree::{
    Arm, AssignMark, Block, BlockKind, CaseWord, Edge, Event, EventMark, Events, Expr, Lvalue,
    NextEvent, Step, StepMark, StepSign, Stmt, Uniq, WholeWord, Word,
};

// ---- targets

#[cycle(target)]
fn lvalues(out: &mut Writer, all: &[Lvalue])
    ensures { Adds (writing.commas spec.write_lvalue all.now) out.old out.new }
{
    match all {
        [] => {}
        [first, more @ ..] => {
            lvalue(out, first);
            'parts: for part in more {
                out.mark(b",");
                lvalue(out, part);
            }
        }
    }
}

/// Writes a target.
#[cycle(target)]
pub fn lvalue(out: &mut Writer, x: &Lvalue)
    ensures { Adds (spec.write_lvalue x.now) out.old out.new }
{
    match x {
        Lvalue::Name(word, all) => {
            out.name(word);
            selects(out, all.as_slice())
        }
        Lvalue::Concat(_, all) => {
            out.mark(b"{");
            lvalues(out, all.as_slice());
            out.mark(b"}")
        }
    }
}

// ---- steps and words

fn step_text(by: StepMark) -> &'static [u8]
    ensures { result.now ≡ texts.step_text by }
{
    match by {
        StepMark::Inc => b"++",
        StepMark::Dec => b"--",
    }
}

fn sign_text(by: StepSign) -> &'static [u8]
    ensures { result.now ≡ texts.step_sign_text by }
{
    match by {
        StepSign::Set => b"=",
        StepSign::Add => b"+=",
        StepSign::Sub => b"-=",
    }
}

pub fn step(out: &mut Writer, variable: &Word, x: &Step)
    ensures { Adds (spec.write_step variable.now x.now) out.old out.new }
{
    match x {
        Step::After(word, by) => {
            out.name(word);
            out.mark(step_text(*by))
        }
        Step::Before(by, word) => {
            out.mark(step_text(*by));
            out.name(word)
        }
        Step::Assign(word, by, value) => {
            out.name(word);
            out.mark(sign_text(*by));
            expr(out, value)
        }
    }
}

impl Part for Uniq {
    ghost text = { spec.write_uniq_key };

    #[tactic(auto, unfolding(crate::specs::Stmts::write_uniq_key))]
    fn put(&self, out: &mut Writer) {
        match self {
            Uniq::Unique => out.key(b"unique"),
            Uniq::Unique0 => out.key(b"unique0"),
            Uniq::Priority => out.key(b"priority"),
        }
    }
}

#[tactic(auto, unfolding(crate::specs::Stmts::write_case_key))]
fn case_word(out: &mut Writer, word: CaseWord)
    ensures { Adds (spec.write_case_key word) out.old out.new }
{
    match word {
        CaseWord::Case => out.key(b"case"),
        CaseWord::Casez => out.key(b"casez"),
    }
}

fn assign_text(by: AssignMark) -> &'static [u8]
    ensures { result.now ≡ texts.assign_text by }
{
    match by {
        AssignMark::Blocking => b"=",
        AssignMark::Nonblocking => b"<=",
    }
}

// The beginning of a block.
pub fn begin(out: &mut Writer, given: &Option<Word>)
    ensures { Adds (spec.begin given.now) out.old out.new }
{
    out.key(b"begin");
    label(out, given)
}

fn label(out: &mut Writer, given: &Option<Word>)
    ensures { Adds (writing.label given.now) out.old out.new }
{
    match given {
        Some(word) => {
            out.mark(b":");
            out.name(word)
        }
        None => {}
    }
}

/// Writes the keyword of an end, and the label behind it.
pub fn end(out: &mut Writer, text: &[u8], given: &Option<Word>)
    ensures { Adds (spec.end text.now given.now) out.old out.new }
{
    out.key(text);
    label(out, given)
}

// ---- what stands before the parts of statements

// The labels of an arm.
fn labels(out: &mut Writer, all: &[Expr])
    ensures { Adds (spec.labels all.now) out.old out.new }
{
    exprs(out, all);
    out.mark(b":")
}

fn default_label(out: &mut Writer, colon: bool)
    ensures { Adds (spec.default_label colon) out.old out.new }
{
    out.key(b"default");
    if colon {
        out.mark(b":")
    }
}

fn if_head(out: &mut Writer, word: &Option<Uniq>, test: &Expr)
    ensures { Adds (spec.if_head word.now test.now) out.old out.new }
{
    maybe(out, word);
    out.key(b"if");
    in_parens(out, test)
}

fn case_head(out: &mut Writer, uniq: &Option<Uniq>, word: CaseWord, value: &Expr)
    ensures { Adds (spec.case_head uniq.now word value.now) out.old out.new }
{
    maybe(out, uniq);
    case_word(out, word);
    in_parens(out, value)
}

/// Writes the start of a loop, its test, its step and the `)`.
pub fn turns(out: &mut Writer, variable: &Word, start: &Expr, test: &Expr, next: &Step)
    ensures { Adds (spec.turns variable.now start.now test.now next.now) out.old out.new }
{
    out.name(variable);
    out.mark(b"=");
    expr_and_mark(out, start, b";");
    expr_and_mark(out, test, b";");
    step(out, variable, next);
    out.mark(b")")
}

fn for_word(out: &mut Writer, word: WholeWord)
    ensures { Adds (spec.for_word word) out.old out.new }
{
    out.key(b"for");
    out.mark(b"(");
    whole_word(out, word)
}

fn assignment(out: &mut Writer, target: &Lvalue, by: AssignMark, value: &Expr)
    ensures { Adds (spec.assignment target.now by value.now) out.old out.new }
{
    lvalue(out, target);
    out.mark(assign_text(by));
    expr_and_mark(out, value, b";")
}

// ---- statements

#[cycle(stmt)]
fn stmts(out: &mut Writer, all: &[Stmt])
    ensures { Adds (writing.each spec.write_stmt all.now) out.old out.new }
{
    'parts: for part in all {
        statement(out, part);
    }
}

#[cycle(stmt)]
fn arms(out: &mut Writer, all: &[Arm])
    ensures { Adds (writing.each spec.write_arm all.now) out.old out.new }
{
    'parts: for part in all {
        arm(out, part);
    }
}

#[cycle(stmt)]
fn arm(out: &mut Writer, x: &Arm)
    ensures { Adds (spec.write_arm x.now) out.old out.new }
{
    match x {
        Arm::Labels(all, body) => {
            labels(out, all.as_slice());
            statement(out, body.get())
        }
        Arm::Default(colon, body) => {
            default_label(out, *colon);
            statement(out, body.get())
        }
    }
}

#[cycle(stmt)]
fn maybe_else(out: &mut Writer, given: &Option<Boxed<Stmt>>)
    ensures { Adds (writing.maybe spec.write_else_part given.now) out.old out.new }
{
    match given {
        Some(part) => {
            out.key(b"else");
            statement(out, part.get())
        }
        None => {}
    }
}

/// Writes a statement.
#[cycle(stmt)]
pub fn statement(out: &mut Writer, x: &Stmt)
    ensures { Adds (spec.write_stmt x.now) out.old out.new }
{
    match x {
        Stmt::Empty => out.mark(b";"),
        Stmt::Block(_, first, all, last) => {
            begin(out, first);
            stmts(out, all.as_slice());
            end(out, b"end", last)
        }
        Stmt::If(word, test, body, other) => {
            if_head(out, word, test);
            statement(out, body.get());
            maybe_else(out, other)
        }
        Stmt::Case(uniq, word, value, all) => {
            case_head(out, uniq, *word, value);
            arms(out, all.as_slice());
            out.key(b"endcase")
        }
        Stmt::For(_, word, variable, start, test, next, body) => {
            for_word(out, *word);
            turns(out, variable, start, test, next);
            statement(out, body.get())
        }
        Stmt::Assign(target, by, _, value) => assignment(out, target, *by, value),
    }
}

// ---- blocks

fn edge_word(out: &mut Writer, word: Edge)
    ensures { Adds (spec.write_edge_key word) out.old out.new }
{
    match word {
        Edge::Pos => out.key(b"posedge"),
        Edge::Neg => out.key(b"negedge"),
    }
}

fn event(out: &mut Writer, x: &Event)
    ensures { Adds (spec.write_event x.now) out.old out.new }
{
    edge_word(out, x.edge);
    out.name(&x.name)
}

fn event_mark(out: &mut Writer, by: EventMark)
    ensures { Adds (spec.write_event_mark by) out.old out.new }
{
    match by {
        EventMark::Or => out.key(b"or"),
        EventMark::Comma => out.mark(b","),
    }
}

impl Part for NextEvent {
    ghost text = { spec.write_next_event };

    fn put(&self, out: &mut Writer) {
        event_mark(out, self.mark);
        event(out, &self.event)
    }
}

fn events(out: &mut Writer, all: &Events)
    ensures { Adds (spec.write_events all.now) out.old out.new }
{
    out.mark(b"@");
    out.mark(b"(");
    event(out, &all.first);
    each(out, all.more.as_slice());
    out.mark(b")")
}

fn block_kind(out: &mut Writer, x: &BlockKind)
    ensures { Adds (spec.write_kind x.now) out.old out.new }
{
    match x {
        BlockKind::Comb => out.key(b"always_comb"),
        BlockKind::Latch => out.key(b"always_latch"),
        BlockKind::Ff(all) => {
            out.key(b"always_ff");
            events(out, all)
        }
        BlockKind::Always(all) => {
            out.key(b"always");
            events(out, all)
        }
        BlockKind::Star => {
            out.key(b"always");
            out.mark(b"@");
            out.mark(b"*")
        }
        BlockKind::StarParen => {
            out.key(b"always");
            out.mark(b"@");
            out.mark(b"(");
            out.mark(b"*");
            out.mark(b")")
        }
    }
}

/// Writes a block.
pub fn block(out: &mut Writer, x: &Block)
    ensures { Adds (spec.write_block x.now) out.old out.new }
{
    block_kind(out, &x.kind);
    statement(out, &x.body)
}
