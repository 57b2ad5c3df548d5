// Targets, statements, and the blocks that hold them (IEEE 1800-2017, A.6 and A.8.5). A statement keeps all that was written,
// labels and the marks of steps too, since the tree is tied to its tokens. An arm of a case statement has one or more labels or
// is the default, so the kinds of arms are one list in the order of the text.
use crate::parts::{drop_head, drop_labels};
use crate::{Expr, Select, WholeWord, Word};
use items::{Boxed, Items};
use sv_outside::Place;

/// A target (A.8.5, variable_lvalue and net_lvalue).
#[cycle(lvalue)]
pub enum Lvalue {
    /// A name with its selects.
    Name(Word, Items<Select>),
    /// One or more targets in braces, with the place of the `{`.
    Concat(Place, Items<Lvalue>),
}

impl Drop for Lvalue {
    #[cycle(lvalue_drop)]
    fn drop(self) {
        match self {
            Lvalue::Name(_, _) => {}
            Lvalue::Concat(_, _) => {}
        }
    }
}

/// A step by one (A.6.2, inc_or_dec_operator).
#[derive(Clone, Copy)]
pub enum StepMark {
    /// `++`
    Inc,
    /// `--`
    Dec,
}

/// The mark of a step by an expression (A.6.2, assignment_operator).
#[derive(Clone, Copy)]
pub enum StepSign {
    /// `=`
    Set,
    /// `+=`
    Add,
    /// `-=`
    Sub,
}

/// The step of a loop, which names the loop's variable (A.6.8, for_step; A.4.2, genvar_iteration).
pub enum Step {
    After(Word, StepMark),
    Before(StepMark, Word),
    Assign(Word, StepSign, Expr),
}

impl Drop for Step {
    fn drop(self) {
        match self {
            Step::After(_, _) => {}
            Step::Before(_, _) => {}
            Step::Assign(_, _, _) => {}
        }
    }
}

/// What is said of the branches of an `if` or a `case` (A.6.6, unique_priority).
#[derive(Clone, Copy)]
pub enum Uniq {
    Unique,
    Unique0,
    Priority,
}

/// The word of a case statement (A.6.7, case_keyword).
#[derive(Clone, Copy)]
pub enum CaseWord {
    Case,
    Casez,
}

/// The mark of an assignment in a block (A.6.2, blocking_assignment and nonblocking_assignment).
#[derive(Clone, Copy)]
pub enum AssignMark {
    /// `=`
    Blocking,
    /// `<=`
    Nonblocking,
}

/// A statement (A.6.4, statement_or_null).
#[cycle(stmt)]
pub enum Stmt {
    /// `;`
    Empty,
    /// The place of the `begin`, the name behind it, the statements, and the name behind the `end`
    /// (A.6.3, seq_block).
    Block(Place, Option<Word>, Items<Stmt>, Option<Word>),
    /// The condition, the statement, and the one behind `else` (A.6.6, conditional_statement).
    If(Option<Uniq>, Expr, Boxed<Stmt>, Option<Boxed<Stmt>>),
    /// What is compared, and one or more arms, at most one of them a default (A.6.7, case_statement).
    Case(Option<Uniq>, CaseWord, Expr, Items<Arm>),
    /// The place of the `for`, and the word, the variable, its start, the condition, the step and the body
    /// (A.6.8, loop_statement).
    For(Place, WholeWord, Word, Expr, Expr, Step, Boxed<Stmt>),
    /// The target, the mark with its place, and the value.
    Assign(Lvalue, AssignMark, Place, Expr),
}

impl Drop for Stmt {
    #[cycle(stmt_drop)]
    fn drop(self) {
        match self {
            Stmt::Empty => {}
            Stmt::Block(_, name, _, label) => drop_labels(name, label),
            Stmt::If(_, _, _, _) => {}
            Stmt::Case(_, _, _, _) => {}
            Stmt::For(_, _, name, start, condition, step, _) => drop_head(
                name, start, condition, step,
            ),
            Stmt::Assign(_, _, _, _) => {}
        }
    }
}

/// An arm of a case statement (A.6.7, case_item).
#[cycle(stmt)]
pub enum Arm {
    /// One or more labels, and the statement.
    Labels(Items<Expr>, Boxed<Stmt>),
    /// Whether a colon stands behind `default`, and the statement.
    Default(bool, Boxed<Stmt>),
}

impl Drop for Arm {
    #[cycle(stmt_drop)]
    fn drop(self) {
        match self {
            Arm::Labels(_, _) => {}
            Arm::Default(_, _) => {}
        }
    }
}

/// The edge of an event (A.6.5, edge_identifier).
#[derive(Clone, Copy)]
pub enum Edge {
    /// `posedge`
    Pos,
    /// `negedge`
    Neg,
}

/// An edge of a name (A.6.5, event_expression).
pub struct Event {
    pub edge: Edge,
    pub name: Word,
}

impl Drop for Event {
    fn drop(self) {
        let Event { edge: _, name: _ } = self;
    }
}

/// What parts an event from the one before (A.6.5, event_expression).
#[derive(Clone, Copy)]
pub enum EventMark {
    /// `or`
    Or,
    /// `,`
    Comma,
}

/// An event behind another, and what parts the two.
pub struct NextEvent {
    pub mark: EventMark,
    pub event: Event,
}

impl Drop for NextEvent {
    fn drop(self) {
        let NextEvent { mark: _, event: _ } = self;
    }
}

/// `@(` one or more events `)` (A.6.5, event_control)
pub struct Events {
    pub first: Event,
    pub more: Items<NextEvent>,
}

impl Drop for Events {
    fn drop(self) {
        let Events { first: _, more: _ } = self;
    }
}

/// What stands before the statement of a block (A.6.2, always_construct).
pub enum BlockKind {
    /// `always_comb`
    Comb,
    /// `always_latch`
    Latch,
    /// `always_ff` and events.
    Ff(Events),
    /// `always` and events.
    Always(Events),
    /// `always @*`
    Star,
    /// `always @(*)`
    StarParen,
}

impl Drop for BlockKind {
    fn drop(self) {
        match self {
            BlockKind::Comb => {}
            BlockKind::Latch => {}
            BlockKind::Ff(_) => {}
            BlockKind::Always(_) => {}
            BlockKind::Star => {}
            BlockKind::StarParen => {}
        }
    }
}

/// A block of a module (A.6.2, always_construct).
pub struct Block {
    pub kind: BlockKind,
    pub body: Stmt,
}

impl Drop for Block {
    fn drop(self) {
        let Block { kind: _, body: _ } = self;
    }
}
