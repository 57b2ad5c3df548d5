// Does the work of the words: a command, its work, and the text or the message that it ends with. How the work ends is one
// value, from which status, text and message follow, so that the three can not contradict each other. Where a message can not
// be made for want of memory, that is how the work ends, and its own message stands ready.
ghost use Rattle.std.specs.Prelude.{◌≡◌, ◌≤◌, ◌<◌, ℕ, List, map, string_bytes, IfErr, IfOk, IfSome};
ghost use Rattle.std.specs.Option.{option_copied};
ghost use Rattle.sv_outside.specs.Outside.{Rose};
ghost use Rattle.svtv.specs.Answers.{Answers, CountsReads, prints_text};
ghost use Rattle.svtv.specs.Outcomes.{status_of, text_of, message_of, IfLeft, IsStopped, IsWork};
ghost use Rattle.svtv_files.specs.Files.{Told};
ghost use Rattle.svtv_words.specs.Commands as m;
ghost use Rattle.svtv_words.specs.Commands.{IsCommand, IsInBounds, command_is};
ghost use Rattle.svtv_selftest.specs.Texts as test;
ghost use Rattle.svtv.specs.declared.status.Status.TheVariants as status;

use crate::status::Status;
use std::alloc::{AllocError, Global};
use sv_outside::{Files, Name};
use svtv_commands::{certify, check, dump, induct, prove, selftest, simulate, wave};
use svtv_files::Stop;
use svtv_report::{memory_text, read_fault_text, refusal_text, usage_text};
use svtv_words::{Command, command_of};

/// How the work ends: with a text for the output, or with a message for the errors.
#[derive(Drop)]
pub enum Outcome {
    AllProved(Vec<u8>),
    NotAll(Vec<u8>),
    Done(Vec<u8>),
    Refused(Vec<u8>),
    Unread(Vec<u8>),
    Misused,
    Memory,
}

impl Outcome {
    pub fn status(&self) -> Status
        ensures { result ≡ status_of self.now }
    {
        match self {
            Outcome::AllProved(_) => Status::AllProved,
            Outcome::NotAll(_) => Status::NotAll,
            Outcome::Done(_) => Status::Done,
            Outcome::Refused(_) => Status::Refused,
            Outcome::Unread(_) => Status::ReadFault,
            Outcome::Misused => Status::Usage,
            Outcome::Memory => Status::Memory,
        }
    }

    /// Whether a text is to be printed, and no message.
    pub fn prints_text(&self) -> bool
        ensures { result ≡ prints_text (status_of self.now) }
    {
        match self {
            Outcome::AllProved(_) | Outcome::NotAll(_) | Outcome::Done(_) => true,
            _ => false,
        }
    }

    pub fn text(&self) -> &[u8]
        ensures { result.now ≡ text_of self.now }
    {
        match self {
            Outcome::AllProved(text) | Outcome::NotAll(text) | Outcome::Done(text) => text,
            _ => &[],
        }
    }

    pub fn message(&self) -> &[u8]
        ensures { result.now ≡ message_of self.now }
    {
        match self {
            Outcome::AllProved(_) | Outcome::NotAll(_) | Outcome::Done(_) => &[],
            Outcome::Refused(message) | Outcome::Unread(message) => message,
            Outcome::Misused => usage_text(),
            Outcome::Memory => memory_text(),
        }
    }
}

// What to say where the work stops.
fn stopped(alloc: Global, stop: Stop) -> Outcome
    ensures { IsStopped stop result }
{
    match stop {
        Stop::Refused(file, refusal) => match refusal_text(alloc, &file, &refusal) {
            Ok(text) => Outcome::Refused(text),
            Err(_) => Outcome::Memory,
        },
        Stop::Unread(file, place) => match read_fault_text(alloc, &file, place) {
            Ok(text) => Outcome::Unread(text),
            Err(_) => Outcome::Memory,
        },
        Stop::Memory => Outcome::Memory,
    }
}

// The names of the files of a command, the last of which holds goals, invariants or values. The table is that of the reset where there are two.
#[derive(Drop)]
struct Names {
    design: Name,
    table: Name,
    last: Name,
}

// The name of the module that is to be the top, if one is given.
fn top_name(alloc: Global, top: Option<&[u8]>) -> Result<Option<Name>, AllocError>
    ensures { IfOk result (λ name. name ≡ option_copied top.entry) }
{
    match top {
        Some(bytes) => {
            let name = Name::new(alloc, bytes)?;
            Ok(Some(name))
        }
        None => Ok(None),
    }
}

fn file_names(alloc: Global, design: &[u8], table: &[u8], last: &[u8]) -> Result<Names, AllocError>
    ensures { IfOk result (λ n. n ≡ record { design = design.now; table = table.now; last = last.now }) }
{
    let design = Name::new(alloc, design)?;
    let table = Name::new(alloc, table)?;
    let last = Name::new(alloc, last)?;
    Ok(Names {
        design,
        table,
        last,
    })
}

#[tactic(auto, using(crate::proofs::Counted::stopped_counts, crate::proofs::Answered::stopped_work))]
fn proved<F: Files>(
    alloc: Global,
    files: &mut F,
    names: &Names,
    top: Option<&Name>,
    budget: Option<u64>,
) -> Outcome
    requires budget { IfSome budget (λ n. 0 < n) }
    ensures is { IsWork (F.contents files.old) (m.prove names.now.design names.now.table names.now.last (option_copied top.entry) budget) result }
    ensures rose { IfLeft (Rose (F.faults files.old) (F.faults files.new)) result }
    ensures counts { CountsReads (status_of result) (F.faults files.old) (F.faults files.new) }
    ensures unchanged { (other : List ℕ) → F.contents files.new other ≡ F.contents files.old other }
    ensures counts_up { F.faults files.old ≤ F.faults files.new }
{
    let Names {
        design,
        table,
        last,
    } = names;
    match prove(alloc, files, design, table, last, top, budget) {
        Ok((true, text)) => Outcome::AllProved(text),
        Ok((false, text)) => Outcome::NotAll(text),
        Err(stop) => stopped(alloc, stop),
    }
}

#[tactic(auto, using(crate::proofs::Counted::stopped_counts, crate::proofs::Answered::stopped_work))]
fn simulated<F: Files>(
    alloc: Global,
    files: &mut F,
    names: &Names,
    top: Option<&Name>,
    vcd: bool,
) -> Outcome
    ensures is { IsWork (F.contents files.old) (m.sim names.now.design names.now.table names.now.last (option_copied top.entry) vcd) result }
    ensures rose { IfLeft (Rose (F.faults files.old) (F.faults files.new)) result }
    ensures counts { CountsReads (status_of result) (F.faults files.old) (F.faults files.new) }
    ensures unchanged { (other : List ℕ) → F.contents files.new other ≡ F.contents files.old other }
    ensures counts_up { F.faults files.old ≤ F.faults files.new }
{
    let Names {
        design,
        table,
        last,
    } = names;
    match simulate(alloc, files, design, table, last, top, vcd) {
        Ok(text) => Outcome::Done(text),
        Err(stop) => stopped(alloc, stop),
    }
}

#[tactic(auto, using(crate::proofs::Counted::stopped_counts, crate::proofs::Answered::stopped_work))]
fn dumped<F: Files>(alloc: Global, files: &mut F, design: &Name, top: Option<&Name>) -> Outcome
    ensures is { IsWork (F.contents files.old) (m.dump design.now (option_copied top.entry)) result }
    ensures rose { IfLeft (Rose (F.faults files.old) (F.faults files.new)) result }
    ensures counts { CountsReads (status_of result) (F.faults files.old) (F.faults files.new) }
    ensures unchanged { (other : List ℕ) → F.contents files.new other ≡ F.contents files.old other }
    ensures counts_up { F.faults files.old ≤ F.faults files.new }
{
    match dump(alloc, files, design, top) {
        Ok(text) => Outcome::Done(text),
        Err(stop) => stopped(alloc, stop),
    }
}

fn tested(alloc: Global, count: u64) -> Outcome
    requires low { 1 ≤ count }
    requires high { count ≤ test.most }
    ensures is { (told : Told) → IsWork told (m.selftest count) result }
{
    match selftest(alloc, count) {
        Ok(text) => Outcome::Done(text),
        Err(stop) => stopped(alloc, stop),
    }
}

#[tactic(auto, using(crate::proofs::Counted::stopped_counts, crate::proofs::Answered::stopped_work))]
fn certified<F: Files>(
    alloc: Global,
    files: &mut F,
    names: &Names,
    goal: &Name,
    top: Option<&Name>,
    budget: Option<u64>,
) -> Outcome
    requires budget { IfSome budget (λ n. 0 < n) }
    ensures is { IsWork (F.contents files.old) (m.cert names.now.design names.now.table names.now.last goal.now (option_copied top.entry) budget) result }
    ensures rose { IfLeft (Rose (F.faults files.old) (F.faults files.new)) result }
    ensures counts { CountsReads (status_of result) (F.faults files.old) (F.faults files.new) }
    ensures unchanged { (other : List ℕ) → F.contents files.new other ≡ F.contents files.old other }
    ensures counts_up { F.faults files.old ≤ F.faults files.new }
{
    let Names {
        design,
        table,
        last,
    } = names;
    match certify(alloc, files, design, table, last, goal, top, budget) {
        Ok((true, text)) => Outcome::Done(text),
        Ok((false, text)) => Outcome::NotAll(text),
        Err(stop) => stopped(alloc, stop),
    }
}

#[tactic(auto, using(crate::proofs::Counted::stopped_counts, crate::proofs::Answered::stopped_work))]
fn checked<F: Files>(alloc: Global, files: &mut F, file: &Name) -> Outcome
    ensures is { IsWork (F.contents files.old) (m.check file.now) result }
    ensures rose { IfLeft (Rose (F.faults files.old) (F.faults files.new)) result }
    ensures counts { CountsReads (status_of result) (F.faults files.old) (F.faults files.new) }
    ensures unchanged { (other : List ℕ) → F.contents files.new other ≡ F.contents files.old other }
    ensures counts_up { F.faults files.old ≤ F.faults files.new }
{
    match check(alloc, files, file) {
        Ok((None, text)) => Outcome::Done(text),
        Ok((Some(_), text)) => Outcome::NotAll(text),
        Err(stop) => stopped(alloc, stop),
    }
}

#[tactic(auto, using(crate::proofs::Counted::stopped_counts, crate::proofs::Answered::stopped_work))]
fn inducted<F: Files>(
    alloc: Global,
    files: &mut F,
    names: &Names,
    period: &Name,
    top: Option<&Name>,
    budget: Option<u64>,
) -> Outcome
    requires budget { IfSome budget (λ n. 0 < n) }
    ensures is { IsWork (F.contents files.old) (m.induct names.now.design names.now.table period.now names.now.last (option_copied top.entry) budget) result }
    ensures rose { IfLeft (Rose (F.faults files.old) (F.faults files.new)) result }
    ensures counts { CountsReads (status_of result) (F.faults files.old) (F.faults files.new) }
    ensures unchanged { (other : List ℕ) → F.contents files.new other ≡ F.contents files.old other }
    ensures counts_up { F.faults files.old ≤ F.faults files.new }
{
    let Names {
        design,
        table,
        last,
    } = names;
    match induct(alloc, files, design, table, period, last, top, budget) {
        Ok((true, text)) => Outcome::AllProved(text),
        Ok((false, text)) => Outcome::NotAll(text),
        Err(stop) => stopped(alloc, stop),
    }
}

#[tactic(auto, using(crate::proofs::Counted::stopped_counts, crate::proofs::Answered::stopped_work))]
fn shown<F: Files>(alloc: Global, files: &mut F, file: &Name, path: &Name) -> Outcome
    ensures is { IsWork (F.contents files.old) (m.wave file.now path.now) result }
    ensures rose { IfLeft (Rose (F.faults files.old) (F.faults files.new)) result }
    ensures counts { CountsReads (status_of result) (F.faults files.old) (F.faults files.new) }
    ensures unchanged { (other : List ℕ) → F.contents files.new other ≡ F.contents files.old other }
    ensures counts_up { F.faults files.old ≤ F.faults files.new }
{
    match wave(alloc, files, file, path) {
        Ok(text) => Outcome::Done(text),
        Err(stop) => stopped(alloc, stop),
    }
}

// Does the work of a command.
#[tactic(auto, using(crate::proofs::Budgets::positive))]
fn worked<F: Files>(
    alloc: Global,
    files: &mut F,
    command: Command<'_>,
) -> Result<Outcome, AllocError>
    requires bounds { IsInBounds (command_is command) }
    ensures is { IfOk result (IsWork (F.contents files.old) (command_is command.entry)) }
    ensures rose { IfOk result (IfLeft (Rose (F.faults files.old) (F.faults files.new))) }
    ensures counts { IfOk result (λ outcome. CountsReads (status_of outcome) (F.faults files.old) (F.faults files.new)) }
    ensures failed { IfErr result (λ e. F.faults files.new ≡ F.faults files.old) }
    ensures unchanged { (other : List ℕ) → F.contents files.new other ≡ F.contents files.old other }
    ensures counts_up { F.faults files.old ≤ F.faults files.new }
{
    match command {
        Command::Prove {
            design,
            table,
            goals,
            top,
            budget,
        } => {
            let names = file_names(alloc, design, table, goals)?;
            let top = top_name(alloc, top)?;
            Ok(proved(alloc, files, &names, top.as_ref(), budget))
        }
        Command::Sim {
            design,
            table,
            values,
            top,
            vcd,
        } => {
            let names = file_names(alloc, design, table, values)?;
            let top = top_name(alloc, top)?;
            Ok(simulated(alloc, files, &names, top.as_ref(), vcd))
        }
        Command::Dump { design, top } => {
            let design = Name::new(alloc, design)?;
            let top = top_name(alloc, top)?;
            Ok(dumped(alloc, files, &design, top.as_ref()))
        }
        Command::Selftest { count } => Ok(tested(alloc, count)),
        Command::Cert {
            design,
            table,
            goals,
            goal,
            top,
            budget,
        } => {
            let names = file_names(alloc, design, table, goals)?;
            let goal = Name::new(alloc, goal)?;
            let top = top_name(alloc, top)?;
            Ok(certified(alloc, files, &names, &goal, top.as_ref(), budget))
        }
        Command::Check { file } => {
            let file = Name::new(alloc, file)?;
            Ok(checked(alloc, files, &file))
        }
        Command::Induct {
            design,
            reset,
            period,
            invariants,
            top,
            budget,
        } => {
            let names = file_names(alloc, design, reset, invariants)?;
            let period = Name::new(alloc, period)?;
            let top = top_name(alloc, top)?;
            Ok(inducted(alloc, files, &names, &period, top.as_ref(), budget))
        }
        Command::Wave { file, path } => {
            let file = Name::new(alloc, file)?;
            let path = Name::new(alloc, path)?;
            Ok(shown(alloc, files, &file, &path))
        }
    }
}

/// Does the work of the words.
#[tactic(auto, using(crate::proofs::Counted::memory_counts, crate::proofs::Answered::answered))]
pub fn answer<F: Files>(alloc: Global, words: &[String], files: &mut F) -> Outcome
    ensures answers { Answers (F.contents files.old) (map string_bytes words.now) (status_of result) (text_of result) (message_of result) }
    ensures usage { ((c : m.Command) → IsCommand (map string_bytes words.now) c → ⊥) → status_of result ≡ status.Usage }
    ensures fault { IfLeft (Rose (F.faults files.old) (F.faults files.new)) result }
    ensures counts { CountsReads (status_of result) (F.faults files.old) (F.faults files.new) }
    ensures unchanged { (other : List ℕ) → F.contents files.new other ≡ F.contents files.old other }
    ensures counts_up { F.faults files.old ≤ F.faults files.new }
{
    let Some(command) = command_of(words) else {
        return Outcome::Misused;
    };
    match worked(alloc, files, command) {
        Ok(outcome) => outcome,
        Err(_) => Outcome::Memory,
    }
}
