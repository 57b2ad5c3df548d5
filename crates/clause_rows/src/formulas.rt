//! Clauses as text: literals as in the DIMACS format, whose variables count from 1, with a `-` where they are negated; each clause ends with
//! a semicolon.

use case_rows::{Fault, part, put, put_number, put_size, signed, size, trimmed};
use cnf::{Cnf, Dim};
use std::alloc::Global;

pub fn dim(word: &[u8]) -> Option<Dim> {
    let (negated, number) = signed(word)?;
    let var = usize::try_from(number.checked_sub(1)?).ok()?;
    Some(Dim { var, negated })
}

// What stands before the semicolon at the end, if there is one.
pub fn ended(text: &[u8]) -> Option<&[u8]> {
    match text {
        [front @ .., b';'] => Some(front),
        _ => None,
    }
}

/// Puts the literals of a clause.
pub fn put_literals(clause: &mut Vec<Dim>, text: &[u8]) -> Result<(), Fault> {
    for word in text.split(|c| *c == b' ') {
        if !word.is_empty() {
            let next = dim(word).ok_or(Fault::Form)?;
            clause.push(next)?;
        }
    }
    Ok(())
}

fn put_clause_of(alloc: Global, clauses: &mut Vec<Vec<Dim>>, text: &[u8]) -> Result<(), Fault> {
    let mut clause = Vec::new(alloc);
    put_literals(&mut clause, text)?;
    Ok(clauses.push(clause)?)
}

fn put_clauses(alloc: Global, clauses: &mut Vec<Vec<Dim>>, text: &[u8]) -> Result<(), Fault> {
    for part in text.split(|c| *c == b';') {
        put_clause_of(alloc, clauses, part)?;
    }
    Ok(())
}

/// Reads `VARIABLES WORDS / CLAUSES`, of which the words are another's.
pub fn read(alloc: Global, cnf: &mut Cnf, question: &[u8]) -> Result<(), Fault> {
    let numbers = trimmed(part(question, b'/', 0));
    cnf.vars = size(part(numbers, b' ', 0))?;
    cnf.clauses.clear();
    match ended(trimmed(part(question, b'/', 1))) {
        Some(text) => put_clauses(alloc, &mut cnf.clauses, text),
        None => Ok(()),
    }
}

fn put_clause(said: &mut Vec<u8>, clause: &[Dim]) -> Result<(), Fault> {
    for d in clause {
        put(said, if d.negated { b" -" } else { b" " })?;
        put_number(said, (d.var as u64).saturating_add(1))?;
    }
    put(said, b";")
}

/// Puts the number of variables and the clauses.
pub fn put_formula(said: &mut Vec<u8>, cnf: &Cnf) -> Result<(), Fault> {
    put_size(said, cnf.vars)?;
    put(said, b":")?;
    for clause in &cnf.clauses {
        put_clause(said, clause.as_slice())?;
    }
    Ok(())
}
