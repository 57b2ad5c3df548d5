//! Replaces variables in nodes of a graph (substitution, with memoized answers): a walk over the nodes of the beginning, in which
//! each becomes a node over what stands for its children.
//!
//! What stands for a variable is told from outside: the walk hands the variable out, and goes on once its answer is given. So wires that
//! are put together from segments, and lists of nodes, are replaced by one walk. Its clauses speak of any two readings, one of the later
//! nodes and one of those of the beginning: where what is given has the value of its variable, each answer has the value of its node.
#![tactic(auto)]

mod named;
mod replacer;

pub use replacer::Replacer;
