// Certificates that are checked. The judge is asked over few variables: those that clauses and steps name.
ghost use Rattle.std.specs.Prelude.{◌≡◌, ◌≤◌, ℕ, List, IfOk, OnOk, IfErr};
ghost use Rattle.cert_names.specs.Names.{NamesBelow};
ghost use Rattle.sv_outside.specs.Outside.{Rose};
ghost use Rattle.svtv_commands.specs.Done.{Checks, IsJudged};
ghost use Rattle.svtv_commands.specs.Judged.{IsBadOf};
ghost use Rattle.svtv_files.specs.Refusals.{LeavesCheck, RefusesCheck};
ghost use Rattle.svtv_files.specs.Stopping.{Counts, IfUnread, Stops};
ghost use Rattle.svtv_report.specs.Texts as texts;

use cert_names::compact;
use cnf::Cnf;
use lrat_text::read_cert;
use refute_check::{CheckErr, Checked, Log, judge};
use std::alloc::{AllocError, Global};
use sv_outside::{Files, Name};
use svtv_files::{Stop, read, refused};
use svtv_report::checked_text;

// The step that the judge found bad, if there is one.
fn bad_of(judged: Result<Checked, CheckErr>) -> Option<usize>
    ensures { IsBadOf judged result }
{
    match judged {
        Ok(_) => None,
        Err(CheckErr::Bad(step)) => Some(step),
    }
}

// The step at which a log does not refute clauses, if there is one.
fn bad_step(alloc: Global, cnf: Cnf, log: Log) -> Result<Option<usize>, AllocError>
    requires { NamesBelow cnf.vars cnf log }
    ensures { IfOk result (IsJudged cnf log) }
{
    let (cnf, log) = compact(alloc, cnf, log)?;
    let judged = judge(alloc, cnf, log)?;
    Ok(bad_of(judged))
}

// What the judge says, and the text that says it.
fn judged(alloc: Global, cnf: Cnf, log: Log) -> Result<(Option<usize>, Vec<u8>), AllocError>
    requires { NamesBelow cnf.vars cnf log }
    ensures judged { IfOk result (λ x. IsJudged cnf log x.0) }
    ensures text { IfOk result (λ x. x.1.items ≡ texts.checked_text x.0) }
{
    let bad = bad_step(alloc, cnf, log)?;
    let text = checked_text(alloc, bad)?;
    Ok((bad, text))
}

/// What is said of the certificate that the file of that name is the text of, or why nothing is.
#[tactic(auto, using(crate::proofs::Counting::of_counts, crate::proofs::Counting::memory_counts))]
pub fn check<F: Files>(
    alloc: Global,
    files: &mut F,
    file: &Name,
) -> Result<(Option<usize>, Vec<u8>), Stop>
    ensures checks { IfOk result (λ x. Checks (F.contents files.old) file.now x.0 x.1.items) }
    ensures stop { IfErr result (Stops (RefusesCheck (F.contents files.old) file.now) (LeavesCheck file.now)) }
    ensures rose { IfErr result (IfUnread (Rose (F.faults files.old) (F.faults files.new))) }
    ensures kept { OnOk result (F.faults files.new ≡ F.faults files.old) }
    ensures counts { IfErr result (λ stop. Counts stop (F.faults files.old) (F.faults files.new)) }
    ensures unchanged { (other : List ℕ) → F.contents files.new other ≡ F.contents files.old other }
    ensures counts_up { F.faults files.old ≤ F.faults files.new }
{
    let text = match read(alloc, files, file) {
        Ok(text) => text,
        Err(stop) => return Err(stop),
    };
    let (cnf, log) = match read_cert(alloc, &text) {
        Ok(pair) => pair,
        Err(error) => return Err(refused(file, error)),
    };
    match judged(alloc, cnf, log) {
        Ok(pair) => Ok(pair),
        Err(_) => Err(Stop::Memory),
    }
}
