//! The words and marks that begin the rules of types, parameters, statements, items and modules, each told by the next
//! token.
//!
//! Each function reads at most one token. The crates above read the rules that begin with it, and take from here the definitions
//! of what a token tells, and of parts that stand one behind the other, in lists and in braces. What stands in the parentheses of a
//! connection is told here too.
#![tactic(auto)]

mod connections;
mod openers;
mod told;

pub use connections::given_pin;
pub use openers::{
    AlwaysWord, ItemOpener, ParamOpener, PartOpener, StepOpener, StmtOpener, TailOpener,
    TargetOpener, TypeOpener,
};
pub use told::{
    always_next, bits_next, case_next, edge_next, event_mark_next, maybe_net, maybe_param,
    maybe_sign, maybe_uniq, maybe_way, net_next, param_bits_next, param_next, sees, sign_next,
    step_next, step_sign_next, take_bits, take_case, take_edge, take_net, take_param,
    take_param_bits, take_sign, take_step, take_step_sign, take_uniq, take_way, take_whole, taken,
    uniq_next, way_next, whole_next,
};
