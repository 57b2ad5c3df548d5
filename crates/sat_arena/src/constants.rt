//! The parameters of the search, and where they are from. What is answered does not depend on them, only how soon. Those that are
//! called measured were chosen on the halves of the suites that are for choosing (bench/goal_clauses.py).

/// A clause, a watch and a step of the log are named by four bytes, and a clause by one bit less, so the search gives up beyond
/// these.
pub const MOST_VARIABLES: usize = 1 << 30;

pub const MOST_CLAUSES: usize = 1 << 30;

pub const MOST_WORDS: usize = 1 << 30;

pub const MOST_STEPS: u32 = 1 << 31;

/// With how many conflicts a search gives up that has no other bound, years from its beginning.
pub const MOST_CONFLICTS: u64 = 1 << 40;

/// Up to how many literals a clause has for which it is not written down where another literal to watch was found last (measured:
/// in these it costs more than it spares).
pub const SHORT_CLAUSE: u32 = 16;

/// Restarts: over how many conflicts a quick and a slow mean of the levels of new clauses go, by how many hundredths the quick one
/// has to be of the slow one (measured; cadical has 110), and how many conflicts lie between two restarts at least (cadical:
/// emagluefast, emaglueslow, restartint).
pub const QUICK: u64 = 33;

pub const SLOW: u64 = 100_000;

pub const MARGIN: u64 = 115;

pub const PAUSE: u64 = 2;

/// Reduction of the learned clauses: after how many conflicts the first one comes (cadical: reduceint), and how many more lie between
/// two each time (measured; cadical has 300); how many hundredths of the clauses that may go do go; up to which glue a clause stays
/// for ever, and up to which it stays for more than one reduction after it was used (cadical: reducetarget, reducetier1glue,
/// reducetier2glue); and for how many it stays then, and above that (cadical).
pub const REDUCE: u64 = 300;

pub const REDUCE_MORE: u64 = 100;

pub const SHARE: usize = 75;

pub const TIER1_GLUE: u32 = 2;

pub const TIER2_GLUE: u32 = 6;

pub const TIER2_USES: u32 = 2;

pub const OTHER_USES: u32 = 1;

/// From how many bytes on the log is trimmed, and by how many times it has to grow before that is done again (measured: four in five
/// of its bytes are still needed then, so to do it sooner spares little); and how many bytes a block of it has (a small part of a log
/// that is trimmed, since one block is held twice while it is).
pub const LEAST_LOG: usize = 1_000_000;

pub const LOG_GROWTH: usize = 2;

pub const LOG_BLOCK: usize = 1 << 16;

/// After how many conflicts the values that are tried first change, and how many more lie between two changes each time (cadical:
/// rephaseint), and how many changes come before they are repeated.
pub const REPHASE: u64 = 1_000;

pub const PHASE_TURNS: u64 = 4;

/// Scores in place of the order by the newest conflict: from how many variables on that conflicts walk over in the mean, below how
/// many they end, over how many conflicts that mean goes, and how many there have to be (measured: it
/// spares the arbiter of 64 a quarter of its conflicts, and changes little elsewhere).
pub const LONG_WALK: u32 = 250;

pub const SHORT_WALK: u32 = 150;

pub const WALKS: u64 = 500;

pub const FEWEST_WALKS: u64 = 200;

/// By which share each conflict counts more in the scores than the one before it (minisat: var-decay 0.95).
pub const SCORE_SHARE: u64 = 20;

/// The first search, before anything is simplified: how many conflicts it has, how many clauses it looks at for each that is given,
/// and how many at least and at most. (Measured: a search in clauses of which nothing was taken out is dear, but large clauses that
/// are easy have many to look at.)
pub const FIRST_CONFLICTS: u64 = 500;

pub const FIRST_SHARE: u64 = 2;

pub const FIRST_LEAST: u64 = 30_000;

pub const FIRST_MOST: u64 = 100_000;

/// Elimination: in how many clauses of one sign a variable stands that is taken out, how many literals a resolvent has at most,
/// and how often all variables are tried (cadical: elimocclim, elimrounds; minisat: clause-lim).
pub const MOST_USES: usize = 100;

pub const LONGEST: usize = 20;

pub const PASSES: usize = 2;

/// How much is looked at while variables are eliminated (a bound on the time alone: clauses of 57,000 variables take a fortieth of it),
/// and how many literals count as one clause that is looked at (an estimate).
pub const ELIMINATION: u64 = 20_000_000;

pub const LITERALS_OF_WORK: usize = 4;

/// Subsumption: how many clauses a clause is tried on, and how many literals it has at most (cadical: subsumeocclim,
/// subsumeclslim, which is 100).
pub const MOST_SUBSUMED: usize = 1_000;

pub const SUBSUMING: usize = 100;

/// Candidate equivalences: how many words of 64 tries there are at most and at least, over how many words of clauses together, and in
/// how many tries a variable has another value than in most at least (measured: with 8 words there are no fewer conflicts).
pub const MOST_TRIES: usize = 16;

pub const FEWEST_TRIES: usize = 3;

pub const TRIED_LITERALS: usize = 20_000_000;

pub const LEAST_TRIES: u64 = 16;

/// How many gates near to a pair are looked at to decide it (measured: it spares Gray counters and products by rows work on pairs
/// that differ).
pub const PAIR_GATES: usize = 1_000;

/// How many conflicts each way of a pair takes at most, how many pairs may be given up, and one more for how many ways that were
/// refuted, and how many clauses are looked at for all of them (measured: without pairs there are a fifth more conflicts, and between
/// 40,000 and this number they differ by 3 percent).
pub const PAIR_CONFLICTS: u64 = 100;

pub const PAIR_FAILURES: u64 = 2;

pub const PAIR_SHARE: u64 = 16;

pub const PAIR_WORK: u64 = 80_000;

/// How deep reasons are looked through for one literal of a new clause (cadical has 1,000, as a bound on its stack; here it bounds the
/// work, and half is enough).
pub const DEPTH: usize = 500;
