//! Expressions typed over the names of a scope.
#![tactic(auto)]

mod begins;
mod chain;
mod constants;
mod held;
mod literals;
mod numbers;
mod picks;
mod position;
mod ranges;
mod refusals;
mod roots;
mod rules;
mod sides;
mod typing;

pub use begins::{is_signed, start};
pub use chain::{Chain, IndexRule};
pub use numbers::small;
pub use position::{Fixed, Position};
pub use refusals::refusal;
pub use sides::layout_under;
pub use typing::{chain_behind, fixed, typed};
