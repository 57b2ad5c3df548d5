//! Laws over fresh logs.

ghost use Rattle.std.specs.Prelude.{ℕ, ◌<◌, ◌^◌, List};
ghost use Rattle.cnf.specs.Formula.{Formula};
ghost use Rattle.refute_check.specs.Entry.{Entry};
ghost use Rattle.refute_check.specs.Fresh.{IsFresh};

/// A fresh log over v variables has fewer than 3 ^ v steps: it does nothing but state the law.
pub fn fresh_logs_are_short()
    ensures { (formula : Formula) (log : List Entry) (n : ℕ) → IsFresh formula log n → n < 3 ^ formula.vars }
{}
