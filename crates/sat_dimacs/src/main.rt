//! Reads clauses in DIMACS form (of the second DIMACS challenge, 1993) from standard input and tells whether they have a
//! solution. (What it reads is not proved to be what the text says.)
//!
//! The text has comments, lines that begin with `c`; before all clauses one line `p cnf V C`; and then C clauses, each of
//! numbers from 1 to V, a negation with a sign, and a 0 at its end. Anything else is no such text.
#![tactic(auto)]

ghost use Rattle.std.specs.Prelude.{◌<◌, ◌≤◌, IsTrue, length, map};
ghost use Rattle.std.specs.List.{All};
ghost use Rattle.cnf.specs.Clauses.{AllBelow};

use cnf::{Cnf, Dim};
use sat_core::{SatEnd, solve};
use std::alloc::{AllocError, Global};
use std::io;
use std::io::Read;

fn is_below(vars: usize, clause: &[Dim]) -> bool
    ensures { IsTrue result → All (λ d. d.var < vars) clause.now }
{
    clause.iter().all(|d| d.var < vars)
}

/// Whether each variable is below `vars`.
fn in_range(cnf: &Cnf) -> bool
    ensures { IsTrue result → AllBelow cnf.now.vars cnf.now.clauses }
{
    all_in_range(cnf.vars, cnf.clauses.as_slice())
}

fn all_in_range(vars: usize, clauses: &[Vec<Dim>]) -> bool
    ensures { IsTrue result → AllBelow vars (map (λ v. v.items) clauses.now) }
{
    for clause in clauses {
        if !is_below(vars, clause.as_slice()) {
            return false;
        }
    }
    true
}

/// Why no clauses were read.
#[derive(Drop)]
enum ReadError {
    /// The text is not in DIMACS form.
    Form,
    /// Want of memory.
    Memory(AllocError),
}

impl From<AllocError> for ReadError {
    fn from(e: AllocError) -> ReadError {
        ReadError::Memory(e)
    }
}

/// What was read so far.
#[derive(Drop)]
struct Reader {
    alloc: Global,
    // The numbers of variables and of clauses, once they were read.
    header: Option<(usize, usize)>,
    clauses: Vec<Vec<Dim>>,
    // The literals of the clause that has no 0 yet.
    clause: Vec<Dim>,
}

/// Whether a byte stands between words.
fn is_blank(byte: u8) -> bool {
    byte == b' ' || (9 <= byte && byte <= 13)
}

/// How many blanks stand at the front.
fn blanks(text: &[u8]) -> usize
    ensures within { result ≤ length text.now }
{
    text.iter().take_while(|b| is_blank(**b)).count()
}

/// How many bytes stand before the first blank.
fn letters(text: &[u8]) -> usize
    ensures within { result ≤ length text.now }
{
    text.iter().take_while(|b| !is_blank(**b)).count()
}

/// How many line feeds stand at the front.
fn feeds(text: &[u8]) -> usize
    ensures within { result ≤ length text.now }
{
    text.iter().take_while(|b| **b == b'\n').count()
}

/// How many bytes stand before the first line feed.
fn inside(text: &[u8]) -> usize
    ensures within { result ≤ length text.now }
{
    text.iter().take_while(|b| **b != b'\n').count()
}

/// The first word, and what stands behind it. Where no word is left, it is empty.
fn split_word(text: &[u8]) -> (&[u8], &[u8]) {
    let (_, words) = text.split_at(blanks(text));
    words.split_at(letters(words))
}

/// The first line that is not empty, and what stands behind it. Where no such line is left, it is empty.
fn split_line(text: &[u8]) -> (&[u8], &[u8]) {
    let (_, lines) = text.split_at(feeds(text));
    lines.split_at(inside(lines))
}

/// Whether a line begins with `c`.
fn is_comment(line: &[u8]) -> bool {
    !line.is_empty() && line[0] == b'c'
}

/// A number with one digit more.
fn with_digit(number: usize, byte: u8) -> Result<usize, ReadError> {
    if byte < b'0' || b'9' < byte {
        return Err(ReadError::Form);
    }
    let digit = usize::from(byte.wrapping_sub(b'0'));
    match number.checked_mul(10) {
        Some(tens) => tens.checked_add(digit).ok_or(ReadError::Form),
        None => Err(ReadError::Form),
    }
}

/// A number of literals or variables, which has a sign where it is negative.
fn number(word: &[u8]) -> Result<(bool, usize), ReadError> {
    let mut negative = false;
    let mut is_any = false;
    let mut number: usize = 0;
    for (place, byte) in word.iter().enumerate() {
        if place == 0 && *byte == b'-' {
            negative = true;
        } else {
            number = with_digit(number, *byte)?;
            is_any = true;
        }
    }
    if is_any {
        Ok((negative, number))
    } else {
        Err(ReadError::Form)
    }
}

/// A number that has no sign.
fn count(word: &[u8]) -> Result<usize, ReadError> {
    match number(word)? {
        (false, n) => Ok(n),
        (true, _) => Err(ReadError::Form),
    }
}

/// The numbers of variables and of clauses of the line `p cnf V C`.
fn header(line: &[u8]) -> Result<(usize, usize), ReadError> {
    let (problem, rest) = split_word(line);
    let (form, rest) = split_word(rest);
    if problem != b"p".as_slice() || form != b"cnf".as_slice() {
        return Err(ReadError::Form);
    }
    let (vars, rest) = split_word(rest);
    let (clauses, rest) = split_word(rest);
    let (more, _) = split_word(rest);
    if !more.is_empty() {
        return Err(ReadError::Form);
    }
    Ok((count(vars)?, count(clauses)?))
}

impl Reader {
    // Takes one number of a clause, where it is not too great.
    fn add(&mut self, negated: bool, n: usize) -> Result<(), AllocError> {
        match n.checked_sub(1) {
            Some(var) => self.clause.push(Dim { var, negated })?,
            None => {
                let clause = Vec::from_slice(self.alloc, self.clause.as_slice())?;
                self.clause.clear();
                self.clauses.push(clause)?;
            }
        }
        Ok(())
    }

    /// Takes one number of a clause among `vars` variables.
    fn take(&mut self, word: &[u8], vars: usize) -> Result<(), ReadError> {
        let (negated, n) = number(word)?;
        if n > vars {
            return Err(ReadError::Form);
        }
        self.add(negated, n)?;
        Ok(())
    }

    /// Takes the numbers of a line among `vars` variables.
    fn take_all(&mut self, line: &[u8], vars: usize) -> Result<(), ReadError> {
        let mut rest = line;
        for _ in 0..line.len() {
            let (word, behind) = split_word(rest);
            if word.is_empty() {
                break;
            }
            self.take(word, vars)?;
            rest = behind;
        }
        Ok(())
    }

    /// Takes one line.
    fn line(&mut self, line: &[u8]) -> Result<(), ReadError> {
        if is_comment(line) {
            return Ok(());
        }
        match self.header {
            Some((vars, _)) => self.take_all(line, vars),
            None => {
                let (word, _) = split_word(line);
                if !word.is_empty() {
                    self.header = Some(header(line)?);
                }
                Ok(())
            }
        }
    }

    /// The clauses, at the end of the text.
    fn finish(self) -> Result<Cnf, ReadError> {
        match self.header {
            Some((vars, count)) => {
                if count != self.clauses.len() || !self.clause.is_empty() {
                    return Err(ReadError::Form);
                }
                Ok(Cnf {
                    vars,
                    clauses: self.clauses,
                })
            }
            None => Err(ReadError::Form),
        }
    }
}

/// The clauses of a text.
fn parse(alloc: Global, text: &[u8]) -> Result<Cnf, ReadError> {
    let mut reader = Reader {
        alloc,
        header: None,
        clauses: Vec::new(alloc),
        clause: Vec::new(alloc),
    };
    let mut rest = text;
    for _ in 0..text.len() {
        let (line, behind) = split_line(rest);
        if line.is_empty() {
            break;
        }
        reader.line(line)?;
        rest = behind;
    }
    reader.finish()
}

fn main(rt: HostRuntime) -> io::Result<()> {
    let alloc = rt.alloc();
    let mut text: Vec<u8> = Vec::new(alloc);
    rt.stdin().read_to_end(&mut text)?;
    let cnf = match parse(alloc, text.as_slice()) {
        Ok(cnf) => cnf,
        Err(ReadError::Memory(e)) => return Err(e.into()),
        Err(ReadError::Form) => {
            println!(rt; "c not in DIMACS form")?;
            println!(rt; "s UNKNOWN")?;
            return Ok(());
        }
    };
    drop(text);
    if !in_range(&cnf) {
        println!(rt; "s UNKNOWN")?;
        return Ok(());
    }
    match solve(alloc, &cnf, None)? {
        SatEnd::Sat(_) => println!(rt; "s SATISFIABLE")?,
        SatEnd::Spent(_) => println!(rt; "s UNKNOWN")?,
        SatEnd::Unsat(_) => println!(rt; "s UNSATISFIABLE")?,
    }
    Ok(())
}
