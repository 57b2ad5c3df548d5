//! Equivalent literal substitution (Aspvall and others 1979): literals that follow from one another by clauses of two literals are
//! equal, and one of them is put in the place of all. They are the strongly connected components of the graph of these clauses,
//! found by two walks with a stack (Sharir 1981). The first one orders literals by when nothing more follows from them that was not
//! met. The second one begins with the last of these, and goes backwards: what it meets from one literal is a component. Since a
//! clause says that the second literal follows from the negation of the first, and the first from that of the second, to go backwards
//! is to go forwards from the negations, and the components are negated.

use sat_arena::words::{Lit, NONE, at, filled, lit_of, narrow, push, put};
use sat_cdcl::database::Database;
use sat_cdcl::engine::Engine;
use sat_cdcl::watches::{Watch, list_of};
use sat_order::order::Order;
use sat_simplify::clean::{clean, holds_always, replace};

/// Of a literal that the first walk met.
const MET: u32 = NONE - 1;

/// Literals for which others are put, and the clauses by which they are equal.
struct Merging {
    // Of a literal what is known of it on the walks: nothing, that it was met, or from which literal the second walk met it.
    roots: Vec<u32>,
    // The literals on the way, with how many watches of their negations were looked at, and those that were on it, in the order in
    // which it was left.
    calls: Vec<(Lit, usize)>,
    left: Vec<Lit>,
    // The least literal of the component of each.
    least: Vec<Lit>,
    // Of a literal the number of the clause by which it follows from the one that is put for it.
    numbers: Vec<u32>,
    // The literals from which others are still to be reached.
    open: Vec<Lit>,
    // The literals of a clause, with those that are put for them.
    renamed: Vec<Lit>,
}

impl Drop for Merging {
    fn drop(self) {
        let Merging {
            roots: _,
            calls: _,
            left: _,
            least: _,
            numbers: _,
            open: _,
            renamed: _,
        } = self;
    }
}

// The literal that follows from another by the clause of this watch of its negation, if that has two literals, or none. Clauses of two
// literals stand before others.
fn follower(lists: &[Vec<Watch>], lit: Lit, looked: usize) -> Lit {
    let list = list_of(lists, lit ^ 1);
    if looked < list.len() && list[looked].is_pair() {
        list[looked].blocker
    } else {
        NONE
    }
}

impl Merging {
    // Meets a literal, if so much is known of it.
    fn meet(&mut self, lit: Lit, known: u32, root: u32, is_short: &mut bool) {
        if at(&self.roots, lit as usize) == known {
            put(&mut self.roots, lit as usize, root);
            push(&mut self.calls, (lit, 0), is_short);
        }
    }

    // Walks from a literal on to those of which so much is known.
    fn walk(
        &mut self,
        lists: &[Vec<Watch>],
        start: Lit,
        known: u32,
        root: u32,
        is_short: &mut bool,
    ) {
        self.meet(start, known, root, is_short);
        for _ in 0..u64::MAX {
            match self.calls.pop() {
                None => break,
                Some((lit, looked)) => {
                    let next = follower(lists, lit, looked);
                    if next == NONE {
                        push(&mut self.left, lit, is_short);
                    } else {
                        let call = (lit, looked.wrapping_add(1));
                        push(&mut self.calls, call, is_short);
                        self.meet(next, known, root, is_short);
                    }
                }
            }
        }
    }

    // Walks from each literal, and again from the negations of those that were left last.
    fn walk_all(&mut self, lists: &[Vec<Watch>], is_short: &mut bool) {
        for lit in 0..narrow(lists.len()) {
            self.walk(lists, lit, NONE, MET, is_short);
        }
        for place in (0..lists.len()).rev() {
            let lit = at(&self.left, place) ^ 1;
            self.walk(lists, lit, MET, lit, is_short);
        }
    }

    // Finds the least literal of each component, behind the walks, up to the least literal that is equal to its negation, so that the
    // clauses have no solution. Answers that, or none.
    fn find_least(&mut self) -> Lit {
        for lit in 0..narrow(self.roots.len()) {
            let root = at(&self.roots, lit as usize);
            if root == at(&self.roots, (lit ^ 1) as usize) {
                return lit;
            }
            let least = at(&self.least, root as usize).min(lit);
            put(&mut self.least, root as usize, least);
            put(&mut self.least, lit as usize, least);
        }
        NONE
    }

    // Writes down that a literal follows from `root`, as it follows from `lit` by the clause of this number.
    fn reach(&mut self, data: &mut Database, root: Lit, lit: Lit, next: Lit, number: u32) {
        let mut known = number;
        if lit != root {
            let before = at(&self.numbers, lit as usize);
            known = data.log.add(&[root ^ 1, next], &[before, number]);
        }
        put(&mut self.numbers, next as usize, known);
        push(&mut self.open, next, &mut data.is_short);
    }

    // Whether a watch is of a clause of two literals of which the other is of the component of `root`, and it is not known why.
    fn is_unknown(&self, root: Lit, watch: Watch) -> bool {
        let lit = watch.blocker;
        let is_inside = at(&self.least, lit as usize) == root && lit != root;
        is_inside && watch.is_pair() && at(&self.numbers, lit as usize) == NONE
    }

    // Goes on from a literal that follows from the least one of its component to those of the component that follow from it.
    fn spread(&mut self, data: &mut Database, list: &[Watch], lit: Lit) {
        let root = at(&self.least, lit as usize);
        for watch in list {
            if self.is_unknown(root, *watch) {
                let number = data.arena.number(watch.clause());
                self.reach(data, root, lit, watch.blocker, number);
            }
        }
    }

    // Writes down that each literal follows for which `root` or its negation is put, the ones of `root` first.
    fn justify(&mut self, data: &mut Database, lists: &[Vec<Watch>], root: Lit) {
        push(&mut self.open, root ^ 1, &mut data.is_short);
        push(&mut self.open, root, &mut data.is_short);
        for _ in 0..u64::MAX {
            match self.open.pop() {
                None => break,
                Some(lit) => self.spread(data, list_of(lists, lit ^ 1), lit),
            }
        }
    }

    // Writes down why all these literals are equal. Answers whether there are any.
    fn justify_all(&mut self, data: &mut Database, lists: &[Vec<Watch>]) -> bool {
        let mut is_any = false;
        for var in 0..narrow(lists.len() / 2) {
            let lit = lit_of(var, true);
            let root = at(&self.least, lit as usize);
            if root != lit && at(&self.numbers, lit as usize) == NONE {
                is_any = true;
                self.justify(data, lists, lit_of(root / 2, true));
            }
        }
        is_any
    }

    // The literals of a clause with those that are put for them, in their order and each once. Answers whether some literal is changed:
    // then the hints say why.
    fn rename(&mut self, literals: &[Lit], hints: &mut Vec<u32>, is_short: &mut bool) -> bool {
        self.renamed.clear();
        hints.clear();
        for lit in literals {
            let to = at(&self.least, *lit as usize);
            push(&mut self.renamed, to, is_short);
            if to != *lit {
                push(hints, at(&self.numbers, (*lit ^ 1) as usize), is_short);
            }
        }
        self.renamed.sort_unstable();
        self.renamed.dedup();
        !hints.is_empty()
    }

    // Puts literals for others in a clause.
    fn substitute_in(&mut self, data: &mut Database, clause: u32) {
        let literals = data.arena.literals(clause);
        if !self.rename(literals, &mut data.hints, &mut data.is_short) {
            return;
        }
        if holds_always(&self.renamed) {
            data.arena.discard(clause);
        } else {
            push(
                &mut data.hints,
                data.arena.number(clause),
                &mut data.is_short,
            );
            let _place = replace(data, clause, &self.renamed);
        }
    }

    // Puts literals for others in all clauses.
    fn substitute(&mut self, data: &mut Database) {
        let clauses = data.arena.clauses(data.alloc);
        for clause in clauses.as_slice() {
            if !data.is_refuted() {
                self.substitute_in(data, *clause);
            }
        }
    }

    // Takes the variables out for which others are put. Their values in a solution are those of these.
    fn leave_out(&self, data: &mut Database, order: &mut Order) {
        for var in 0..narrow(order.gone.len()) {
            let lit = lit_of(var, true);
            let to = at(&self.least, lit as usize);
            if to != lit {
                data.keep(&[lit, to ^ 1, 2, lit ^ 1, to, 2]);
                order.leave_out(var);
            }
        }
    }
}

/// Propagates once, while the clauses are not refuted, and learns from a clause that is false, if there is one.
pub fn settle(engine: &mut Engine) {
    if !engine.data.is_refuted() {
        if let Some(conflict) = engine.propagate() {
            engine.learn(conflict);
        }
    }
}

/// Puts one literal in the place of all that are equal to it. All is clean and watched before, pairs before others. Answers whether
/// clauses changed: then the watches are still those of the clauses before. Where a literal is equal to its negation, the clauses are
/// refuted: that it is decided is a conflict, and what is learned is another.
pub fn merge(engine: &mut Engine) -> bool {
    let alloc = engine.data.alloc;
    let count = engine.lists.len();
    let is_short = &mut engine.data.is_short;
    let mut merging = Merging {
        roots: filled(alloc, NONE, count, is_short),
        calls: Vec::new(alloc),
        left: Vec::new(alloc),
        least: filled(alloc, NONE, count, is_short),
        numbers: filled(alloc, NONE, count, is_short),
        open: Vec::new(alloc),
        renamed: Vec::new(alloc),
    };
    merging.walk_all(&engine.lists, is_short);
    let both = merging.find_least();
    if both != NONE {
        engine.data.trail.decide(both);
        settle(engine);
        settle(engine);
        false
    } else if merging.justify_all(&mut engine.data, &engine.lists) {
        merging.substitute(&mut engine.data);
        merging.leave_out(&mut engine.data, &mut engine.order);
        clean(&mut engine.data);
        true
    } else {
        false
    }
}
