// The marks of assignments in blocks are judged: all of one block are alike, `<=` in clocked blocks and `=` in combinational ones,
// which is this tool's rule. It is a walk of its own, before the statements are typed, because it also judges statements that no
// turn of a loop reaches, while typing goes through the turns that there are. A walk asks for no names and takes no memory.
ghost use Rattle.std.specs.Prelude.{◌≡◌, [], ◌++◌, IfOk, IfErr};
ghost use Rattle.sv_meaning.specs.Faults.{Faults};
ghost use Rattle.sv_meaning.specs.Blocks.{marks, mark_faults, is_mark, earlier, first_mark};
ghost use Rattle.sv_typing.specs.Judging.{IsCause};
ghost use Rattle.sv_actions.specs.Listing.{JudgesFaults, else_marks, faults_in, arm_marks, else_mark, first_in, arm_mark};

use items::Boxed;
use sv_outside::{Place, TextErr, refusals};
use sv_tree::{Arm, AssignMark, Stmt};
use sv_typing::refusal;

// Whether a mark is the one that is asked for.
fn is_mark(mark: AssignMark, given: AssignMark) -> bool
    ensures { result ≡ is_mark mark given }
{
    match (mark, given) {
        (AssignMark::Blocking, AssignMark::Blocking) => true,
        (AssignMark::Blocking, AssignMark::Nonblocking) => false,
        (AssignMark::Nonblocking, AssignMark::Blocking) => false,
        (AssignMark::Nonblocking, AssignMark::Nonblocking) => true,
    }
}

// The mark of one assignment.
fn mark_at(mark: AssignMark, given: AssignMark, place: Place) -> Result<(), TextErr>
    ensures { JudgesFaults (mark_faults mark given place) result }
{
    if is_mark(mark, given) {
        Ok(())
    } else {
        Err(TextErr::No(refusal(refusals::WRONG_ASSIGN, place)))
    }
}

// Two that are judged each by itself.
fn both(x: Result<(), TextErr>, y: Result<(), TextErr>) -> Result<(), TextErr>
    ensures { (f g : Faults) → JudgesFaults f x → JudgesFaults g y → JudgesFaults (f ++ g) result }
{
    match x {
        Ok(()) => y,
        Err(why) => Err(why),
    }
}

#[cycle(mark)]
fn marks_in(mark: AssignMark, stmt: &Stmt) -> Result<(), TextErr>
    ensures { JudgesFaults (marks mark stmt.now) result }
{
    match stmt {
        Stmt::Empty => Ok(()),
        Stmt::Block(_, _, all, _) => marks_of(mark, all.as_slice()),
        Stmt::If(_, _, body, other) => { both(marks_in(mark, body.get()), marks_else(mark, other)) }
        Stmt::Case(_, _, _, arms) => marks_arms(mark, arms.as_slice()),
        Stmt::For(_, _, _, _, _, _, body) => marks_in(mark, body.get()),
        Stmt::Assign(_, given, place, _) => mark_at(mark, *given, *place),
    }
}

#[cycle(mark)]
fn marks_else(mark: AssignMark, other: &Option<Boxed<Stmt>>) -> Result<(), TextErr>
    ensures { JudgesFaults (else_marks mark other.now) result }
{
    match other {
        Some(body) => marks_in(mark, body.get()),
        None => Ok(()),
    }
}

#[cycle(mark)]
fn marks_of(mark: AssignMark, all: &[Stmt]) -> Result<(), TextErr>
    ensures { JudgesFaults (faults_in (marks mark) all.now) result }
{
    let mut found = Ok(());
    'parts: for part in all {
        found = both(found, marks_in(mark, part));
    }
    found
}

#[cycle(mark)]
fn marks_arms(mark: AssignMark, all: &[Arm]) -> Result<(), TextErr>
    ensures { JudgesFaults (faults_in (arm_marks mark) all.now) result }
{
    let mut found = Ok(());
    'parts: for part in all {
        found = both(found, marks_arm(mark, part));
    }
    found
}

#[cycle(mark)]
fn marks_arm(mark: AssignMark, arm: &Arm) -> Result<(), TextErr>
    ensures { JudgesFaults (arm_marks mark arm.now) result }
{
    match arm {
        Arm::Labels(_, body) => marks_in(mark, body.get()),
        Arm::Default(_, body) => marks_in(mark, body.get()),
    }
}

/// Judges the marks of all assignments in a statement, also of those that no turn of a loop reaches: E24 at each other mark (this
/// tool's rule).
pub fn judge_marks(mark: AssignMark, stmt: &Stmt) -> Result<(), TextErr>
    ensures fine { IfOk result (λ u. marks mark stmt.now ≡ []) }
    ensures cause { IfErr result (λ e. IsCause (marks mark stmt.now) e) }
{
    marks_in(mark, stmt)
}

// ---- the first mark

fn earlier(first: Option<AssignMark>, later: Option<AssignMark>) -> Option<AssignMark>
    ensures { result ≡ earlier first later }
{
    match first {
        Some(mark) => Some(mark),
        None => later,
    }
}

/// The mark of the first assignment in a statement, in the order of the text, also of one that no turn of a loop reaches.
#[cycle(first)]
pub fn first_mark(stmt: &Stmt) -> Option<AssignMark>
    ensures { result ≡ first_mark stmt.now }
{
    match stmt {
        Stmt::Empty => None,
        Stmt::Block(_, _, all, _) => first_mark_of(all.as_slice()),
        Stmt::If(_, _, body, other) => earlier(first_mark(body.get()), first_mark_else(other)),
        Stmt::Case(_, _, _, arms) => first_mark_arms(arms.as_slice()),
        Stmt::For(_, _, _, _, _, _, body) => first_mark(body.get()),
        Stmt::Assign(_, mark, _, _) => Some(*mark),
    }
}

#[cycle(first)]
fn first_mark_else(other: &Option<Boxed<Stmt>>) -> Option<AssignMark>
    ensures { result ≡ else_mark other.now }
{
    match other {
        Some(body) => first_mark(body.get()),
        None => None,
    }
}

#[cycle(first)]
fn first_mark_of(all: &[Stmt]) -> Option<AssignMark>
    ensures { result ≡ first_in first_mark all.now }
{
    let mut found = None;
    'parts: for part in all {
        found = earlier(found, first_mark(part));
    }
    found
}

#[cycle(first)]
fn first_mark_arms(all: &[Arm]) -> Option<AssignMark>
    ensures { result ≡ first_in arm_mark all.now }
{
    let mut found = None;
    'parts: for part in all {
        found = earlier(found, first_mark_arm(part));
    }
    found
}

#[cycle(first)]
fn first_mark_arm(arm: &Arm) -> Option<AssignMark>
    ensures { result ≡ arm_mark arm.now }
{
    match arm {
        Arm::Labels(_, body) => first_mark(body.get()),
        Arm::Default(_, body) => first_mark(body.get()),
    }
}
