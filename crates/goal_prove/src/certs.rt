// Verdicts, and what shows that they are right.
ghost use Rattle.std.specs.Prelude.{◌≡◌};

use aig::{Aig, Lit};
use cnf::Cnf;
use fourvec::Four;
use items::Items;
use refute_check::{Checked, Log};

/// Clauses, and a log of steps that follow from them.
pub struct Cert {
    pub cnf: Cnf,
    pub log: Log,
}

impl Drop for Cert {
    fn drop(self) {
        let Cert { cnf: _, log: _ } = self;
    }
}

impl Cert {
    /// The clauses and the log.
    pub fn into_parts(self) -> (Cnf, Log)
        ensures cnf { result.0 ≡ self.cnf }
        ensures log { result.1 ≡ self.log }
    {
        let Cert { cnf, log } = self;
        (cnf, log)
    }
}

/// A question that was left: its graph and literal, the clauses of these, and the new clauses that were learned.
pub struct Left {
    pub aig: Aig,
    pub root: Lit,
    pub cert: Cert,
}

impl Drop for Left {
    fn drop(self) {
        let Left {
            aig: _,
            root: _,
            cert: _,
        } = self;
    }
}

/// What is said of a goal. The first two have clauses of the question that has no answer, and a log that refutes them, as the judge
/// has found; a failure has a vector for each variable.
#[derive(Drop)]
pub enum Verdict {
    Proved(Checked),
    Vacuous(Checked),
    Failed(Items<Four>),
    Undecided(Left),
}
