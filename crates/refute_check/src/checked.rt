//! What a judged log stands for. Only `judge` makes a `Checked`, so whoever holds one knows that its log was accepted.

ghost use Rattle.std.specs.Prelude.{◌≡◌, ℕ, ◌↔◌, Result, Err, IfOk, IsOk};
ghost use Rattle.cnf.specs.Clauses.{HasNoSolution};
ghost use Rattle.refute_check.specs.Accepted.{IsAccepted, IsBadAt};
ghost use Rattle.refute_check.specs.Certs.{certificate_of};

use crate::checker::{CheckErr, Checker};
use crate::log::Log;
use cnf::Cnf;
use std::alloc::{AllocError, Global};
use std::marker::Model;

/// Clauses and a log that refutes them. `judge` alone makes one.
pub struct Checked {
    cnf: Cnf,
    log: Log,
}

impl Model for Checked {
    ghost use Rattle.refute_check.specs.Accepted.{IsAccepted};
    ghost use Rattle.refute_check.specs.Certs.{Certificate};

    ghost Value = { Certificate };

    ghost view = { λ c. record { cnf = c.cnf; log = c.log } };

    ghost invariant = { λ c. IsAccepted c.cnf c.log };
}

impl Drop for Checked {
    fn drop(self) {
        let Checked { cnf: _, log: _ } = self;
    }
}

impl Checked {
    /// The clauses that have no solution.
    pub fn cnf(&self) -> &Cnf
        ensures same { result.now ≡ self.now.cnf }
        ensures accepted { IsAccepted self.now.cnf self.now.log }
    {
        &self.cnf
    }

    /// The steps that were accepted.
    pub fn log(&self) -> &Log
        ensures same { result.now ≡ self.now.log }
        ensures accepted { IsAccepted self.now.cnf self.now.log }
    {
        &self.log
    }
}

// Clauses and a log, where the check has said this of them.
fn said(cnf: Cnf, log: Log, verdict: Result<(), CheckErr>) -> Result<Checked, CheckErr>
    requires ok { IsOk verdict ↔ IsAccepted cnf log }
    requires bad { (k : ℕ) → (verdict ≡ Err (CheckErr.Bad k)) ↔ IsBadAt cnf log k }
    ensures same { IfOk result (λ checked. checked ≡ certificate_of cnf log) }
    ensures ok { IsOk result ↔ IsAccepted cnf log }
    ensures bad { (k : ℕ) → (result ≡ Err (CheckErr.Bad k)) ↔ IsBadAt cnf log k }
{
    match verdict {
        Ok(()) => Ok(Checked { cnf, log }),
        Err(bad) => Err(bad),
    }
}

/// Judges a log: each step has to be derived and one to be empty. What is refused is given up.
pub fn judge(alloc: Global, cnf: Cnf, log: Log) -> Result<Result<Checked, CheckErr>, AllocError>
    // what was judged is what was handed in
    ensures same { IfOk result (λ judged. IfOk judged (λ checked. checked ≡ certificate_of cnf log)) }

    // exactly where the log is accepted
    ensures ok { IfOk result (λ judged. IsOk judged ↔ IsAccepted cnf log) }
    ensures bad { IfOk result (λ judged. (k : ℕ) → (judged ≡ Err (CheckErr.Bad k)) ↔ IsBadAt cnf log k) }

    // so the clauses have no solution
    ensures refuted { IfOk result (λ judged. IsOk judged → HasNoSolution cnf.clauses) }
{
    let mut checker = Checker::new(alloc, &cnf, &log)?;
    let verdict = checker.check(&cnf, &log);
    Ok(said(cnf, log, verdict))
}
