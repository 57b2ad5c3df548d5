//! Goals over the variables, and what is said of them.
//!
//! - `samples`, `hyps`, `claims`: expressions, with a `;` between two. A claim reads a sample as `sampled0.4`. A sample is a variable, a
//!   constant, or one operator over these.
//! - `goal`: a budget, or `-` for none, and the verdict: `1 => undecided 1` with the number of new clauses, `- => failed 0101 1` with a
//!   vector for each variable. Where nodes are left in the graph of expressions behind the verdict, that is told too.

ghost use Rattle.std.specs.Prelude.{◌<◌, IfSome, IsTrue};

use crate::nodes::{are_bits, are_samples, have_widths};
use case_exprs::{built, put_vectors};
use case_rows::{Fault, Judge, number, put, put_size};
use goal_prove::{Verdict, prove_goal};
use std::alloc::Global;
use svex_arena::{Arena, Node};
use svtv_table::VarDecl;

/// The nodes of a goal.
#[derive(Drop)]
pub struct Goal {
    alloc: Global,
    arena: Arena,
    samples: Vec<Node>,
    hyps: Vec<Node>,
    claims: Vec<Node>,
}

/// What an expression is in a goal.
#[derive(Clone, Copy)]
pub enum Role {
    Sample,
    Hyp,
    Claim,
}

// The nodes of expressions, in place of those before.
fn read_nodes(
    alloc: Global,
    arena: &mut Arena,
    nodes: &mut Vec<Node>,
    texts: &[u8],
) -> Result<(), Fault> {
    nodes.clear();
    for text in texts.split(|c| *c == b';') {
        if !text.is_empty() {
            let node = built(arena, alloc, text)?;
            nodes.push(node)?;
        }
    }
    Ok(())
}

impl Goal {
    pub fn new(alloc: Global) -> Goal {
        Goal {
            alloc,
            arena: Arena::new(alloc),
            samples: Vec::new(alloc),
            hyps: Vec::new(alloc),
            claims: Vec::new(alloc),
        }
    }

    /// Forgets the expressions of the goal before.
    pub fn clear(&mut self) {
        self.samples.clear();
        self.hyps.clear();
        self.claims.clear();
    }

    /// The expressions of a role, in place of those before.
    pub fn read(&mut self, role: Role, texts: &[u8]) -> Result<(), Fault> {
        let alloc = self.alloc;
        match role {
            Role::Sample => read_nodes(alloc, &mut self.arena, &mut self.samples, texts),
            Role::Hyp => read_nodes(alloc, &mut self.arena, &mut self.hyps, texts),
            Role::Claim => read_nodes(alloc, &mut self.arena, &mut self.claims, texts),
        }
    }
}

// A budget is a number above 0.
fn is_budget(budget: Option<u64>) -> bool
    ensures { IsTrue result → IfSome budget (λ n. 0 < n) }
{
    match budget {
        Some(count) => 0 < count,
        None => true,
    }
}

fn decided(
    alloc: Global,
    arena: &mut Arena,
    vars: &[VarDecl],
    samples: &[Node],
    hyps: &[Node],
    claims: &[Node],
    budget: Option<u64>,
) -> Result<Verdict, Fault> {
    if !have_widths(vars) || !is_budget(budget) {
        return Err(Fault::Form);
    }
    if !are_samples(arena, samples) || !are_bits(arena, hyps) || !are_bits(arena, claims) {
        return Err(Fault::Form);
    }
    let verdict = prove_goal(alloc, arena, vars, samples, hyps, claims, budget)?;
    Ok(verdict)
}

fn put_verdict(said: &mut Vec<u8>, verdict: &Verdict) -> Result<(), Fault> {
    match verdict {
        Verdict::Proved(_) => put(said, b"proved"),
        Verdict::Vacuous(_) => put(said, b"vacuous"),
        Verdict::Failed(choice) => {
            put(said, b"failed")?;
            put_vectors(said, choice.as_slice())
        }
        Verdict::Undecided(left) => {
            put(said, b"undecided ")?;
            put_size(said, left.cert.log.steps.len())
        }
    }
}

// Tells of nodes that came or went.
fn put_change(said: &mut Vec<u8>, before: usize, after: usize) -> Result<(), Fault> {
    if before == after {
        return Ok(());
    }
    put(said, b", nodes before and after: ")?;
    put_size(said, before)?;
    put(said, b" ")?;
    put_size(said, after)
}

fn budget_of(word: &[u8]) -> Result<Option<u64>, Fault> {
    if word == b"-".as_slice() {
        return Ok(None);
    }
    let count = number(word).ok_or(Fault::Form)?;
    Ok(Some(count))
}

impl Goal {
    // What is said of the goal.
    fn verdict(&mut self, vars: &[VarDecl], budget: Option<u64>) -> Result<Verdict, Fault> {
        decided(
            self.alloc,
            &mut self.arena,
            vars,
            &self.samples,
            &self.hyps,
            &self.claims,
            budget,
        )
    }
}

/// Judges verdicts.
#[derive(Drop)]
pub struct Verdicts<'a> {
    vars: &'a [VarDecl],
    goal: &'a mut Goal,
}

impl<'a> Verdicts<'a> {
    pub fn new(vars: &'a [VarDecl], goal: &'a mut Goal) -> Verdicts<'a> {
        Verdicts { vars, goal }
    }
}

impl<'a> Judge for Verdicts<'a> {
    fn row(&mut self, question: &[u8], _wanted: &[u8], said: &mut Vec<u8>) -> Result<(), Fault> {
        let budget = budget_of(question)?;
        let before = self.goal.arena.len();
        let verdict = self.goal.verdict(self.vars, budget)?;
        put_verdict(said, &verdict)?;
        put_change(said, before, self.goal.arena.len())
    }
}
