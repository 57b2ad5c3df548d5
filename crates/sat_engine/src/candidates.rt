//! Candidate equivalences by random simulation (SAT sweeping, Kuehlmann and others 2002, on clauses): literals that are likely to
//! be equal. Random values are run through the clauses, and variables that have the same values in all tries, or opposite ones, are
//! a pair. Where clauses describe gates, each behind those that it reads, a variable is what the clauses make it in which it is the
//! greatest, and where they leave it free it is random.
//!
//! 64 tries go at once, as the bits of a word. The random bits are 1 more often or more seldom by turns, since a gate of many
//! inputs hardly ever changes where each input is 1 in half of the tries.

use sat_arena::arena::Arena;
use sat_arena::constants::{FEWEST_TRIES, LEAST_TRIES, MOST_TRIES, TRIED_LITERALS};
use sat_arena::trail::is_open;
use sat_arena::words::{Lit, at, at_or, filled, is_negated, lit_of, narrow, push, put, var_of};
use sat_cdcl::database::Database;
use sat_simplify::ranks::Ranks;
use sat_simplify::table::Table;
use std::alloc::Global;

/// So many kinds of random words come by turns.
const KINDS: usize = 5;

/// A number that is not 0, and one by which numbers are mixed.
const SEED: u64 = 0x9e37_79b9_7f4a_7c15;

const MULTIPLIER: u64 = 0x9e37_79b9_7f4a_7c15;

/// What is known of a variable.
#[derive(Clone, Copy)]
struct Told {
    // Whether the first value of all was true. Then the values are turned round for what follows.
    is_turned: bool,
    // A number that comes of all values, and in how many tries the value was not the first one.
    sum: u64,
    count: u64,
}

const NOTHING: Told = Told {
    is_turned: false,
    sum: 0,
    count: 0,
};

// The random number behind another, which is not 0 (Marsaglia 2003).
fn next(number: u64) -> u64 {
    let first = number ^ (number << 13);
    let second = first ^ (first >> 7);
    second ^ (second << 17)
}

// Makes words of three random ones behind a random number, all of one kind: their bits are 1 in half of the tries, in a quarter, in
// three, in an eighth or in seven. Answers the newest random number.
fn draw(values: &mut Vec<u64>, number: u64, kind: usize) -> u64 {
    let mut three = number;
    for var in 0..values.len() {
        let one = next(three);
        let two = next(one);
        three = next(two);
        let word = match kind {
            0 => one,
            1 => one & two,
            2 => one | two,
            3 => one & two & three,
            _ => one | two | three,
        };
        put(values, var, word);
    }
    three
}

// The greatest rank of a variable in a clause.
fn greatest(ranks: &[u32], literals: &[Lit]) -> u32 {
    let mut greatest: u32 = 0;
    for lit in literals {
        greatest = greatest.max(at(ranks, var_of(*lit)));
    }
    greatest
}

// Clauses, by the greatest rank of a variable in each.
fn by_greatest(
    alloc: Global,
    arena: &Arena,
    clauses: &[u32],
    ranks: &[u32],
    is_short: &mut bool,
) -> Table {
    let mut table = Table::new(alloc, ranks.len(), is_short);
    for clause in clauses {
        table.count(greatest(ranks, arena.literals(*clause)));
    }
    table.make_room(alloc, is_short);
    for clause in clauses {
        let rank = greatest(ranks, arena.literals(*clause));
        table.put(rank, *clause);
    }
    table
}

// The values of a literal, of those of variables.
fn values_of(values: &[u64], lit: Lit) -> u64 {
    let word = at_or(values, var_of(lit), 0);
    if is_negated(lit) { !word } else { word }
}

// Makes the clause true by a variable of its own, where it is false: there the variable gets its other value.
fn mend(values: &mut Vec<u64>, literals: &[Lit], var: u32) {
    let mut wrong = u64::MAX;
    for lit in literals {
        wrong = wrong & !values_of(values, *lit);
    }
    let old = values_of(values, lit_of(var, true));
    put(values, var as usize, old ^ wrong);
}

// Makes all clauses true by their greatest variables, in the order of these.
fn mend_all(values: &mut Vec<u64>, arena: &Arena, vars: &[u32], table: &Table) {
    for (rank, var) in vars.iter().enumerate() {
        for clause in table.row(narrow(rank)) {
            mend(values, arena.literals(*clause), *var);
        }
    }
}

// Notes the newest values.
fn note_all(told: &mut Vec<Told>, values: &[u64], is_first: bool) {
    for (var, newest) in values.iter().enumerate() {
        let t = at_or(told, var, NOTHING);
        let is_turned = if is_first {
            newest % 2 == 1
        } else {
            t.is_turned
        };
        let values = if is_turned { !*newest } else { *newest };
        let sum = (t.sum ^ values).wrapping_mul(MULTIPLIER);
        let t = Told {
            is_turned,
            sum: sum ^ (sum >> 29),
            count: t.count.saturating_add(values.count_ones() as u64),
        };
        put(told, var, t);
    }
}

// The ranks of the open variables that may be paired, after so many words of tries, each with the literal that had the first value of
// all, and behind the sum of its values, so that those of one sum stand beside one another.
fn ranked(
    data: &mut Database,
    gone: &[bool],
    told: &[Told],
    ranks: &[u32],
    words: usize,
) -> Vec<(u64, u32, Lit)> {
    let tries = (words as u64).saturating_mul(64);
    let mut found = Vec::new(data.alloc);
    for (place, t) in told.iter().enumerate() {
        let var = narrow(place);
        let rarer = t.count.min(tries.saturating_sub(t.count));
        if rarer >= LEAST_TRIES && is_open(&data.trail.values, gone, var) {
            let candidate = (t.sum, at(ranks, place), lit_of(var, t.is_turned));
            push(&mut found, candidate, &mut data.is_short);
        }
    }
    found.sort_unstable();
    found
}

// The literals of pairs of one sum, that of the greater rank first and behind that rank, in the order of these.
fn pairs_of(
    alloc: Global,
    ranked: &[(u64, u32, Lit)],
    is_short: &mut bool,
) -> Vec<(u32, Lit, Lit)> {
    let mut found = Vec::new(alloc);
    for k in 1..ranked.len() {
        let (sum, _, earlier) = ranked[k - 1];
        let (other, rank, later) = ranked[k];
        if sum == other {
            push(&mut found, (rank, later, earlier), is_short);
        }
    }
    found.sort_unstable();
    found
}

/// Pairs of literals that are likely to be equal, of which the first is of the variable that is made later, behind the rank of that:
/// the pair with the earliest such variable comes first.
pub fn likely_pairs(
    data: &mut Database,
    gone: &[bool],
    ranks: &Ranks,
    clauses: &[u32],
) -> Vec<(u32, Lit, Lit)> {
    let words = TRIED_LITERALS
        .checked_div(data.arena.words.len())
        .unwrap_or(MOST_TRIES)
        .min(MOST_TRIES);
    if words < FEWEST_TRIES {
        return Vec::new(data.alloc);
    }
    let alloc = data.alloc;
    let count = ranks.ranks.len();
    let is_short = &mut data.is_short;
    let table = by_greatest(alloc, &data.arena, clauses, &ranks.ranks, is_short);
    let mut told = filled(alloc, NOTHING, count, is_short);
    let mut values: Vec<u64> = filled(alloc, 0, count, is_short);
    let mut number = SEED;
    for k in 0..words {
        number = draw(&mut values, number, k % KINDS);
        mend_all(&mut values, &data.arena, &ranks.vars, &table);
        note_all(&mut told, &values, k == 0);
    }
    let ranked = ranked(data, gone, &told, &ranks.ranks, words);
    pairs_of(alloc, &ranked, &mut data.is_short)
}
