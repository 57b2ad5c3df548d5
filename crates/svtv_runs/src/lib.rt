//! Runs of a design under the stimuli of a table, what goals say of them, and the laws that make one run stand for all: there is one
//! least run, and a claim that is true in it is true in every run.
#![tactic(auto)]

ghost use Rattle.svtv_runs.specs.Laws.{LeastRunIsOne, LeastRunIsOneFrom, LeastRunStands, LeastRunStandsFrom, TruthsLast};

/// Under each choice of the variables of a table a design has a run below all its runs, and no other such run.
#[tactic(auto, using(crate::proofs::Runs::least_run_stands, crate::proofs::Runs::least_run_is_one))]
pub fn one_least_run()
    ensures stands { LeastRunStands }
    ensures one { LeastRunIsOne }
{}

/// So it is with the runs that begin with a given valuation, in which joined bits are equal.
#[tactic(auto, using(crate::proofs::Runs::least_run_stands_from, crate::proofs::Runs::least_run_is_one_from))]
pub fn one_least_run_from()
    ensures stands { LeastRunStandsFrom }
    ensures one { LeastRunIsOneFrom }
{}

/// A claim that is true in a run is true in every run above it, under the same choice.
pub fn truths_last()
    ensures { TruthsLast }
{}
