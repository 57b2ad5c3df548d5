//! Types, parameters and targets: layouts of bits, the constants that come with them, and the bits that targets name.
#![tactic(auto)]

mod bounds;
mod copies;
mod depth;
mod enumerators;
mod forms;
mod kinds;
mod members;
mod params;
mod ranges;
mod whole;

pub use bounds::Bounds;
pub use copies::copy;
pub use enumerators::Enumerator;
pub use forms::{Formed, form_of, layout_of};
pub use kinds::{ParamKind, ParamSize};
pub use params::{param_kind, param_value};
pub use sv_const::sized;
