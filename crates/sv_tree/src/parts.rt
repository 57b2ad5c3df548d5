// What a statement or an item holds beside statements and items is dropped by one call each, outside of the cycle of their
// drops, where every step is dear to prove.
use crate::{Expr, Step, Word};

/// What a loop holds before its body.
pub fn drop_head(_name: Word, _start: Expr, _condition: Expr, _step: Step) {}

/// The names behind the `begin` and the `end` of a block.
pub fn drop_labels(_name: Option<Word>, _label: Option<Word>) {}
