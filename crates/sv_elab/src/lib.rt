//! The flat design of a source: its wires, drivers of their bits over one graph, and the bits that ports join
//! (IEEE 1800-2017, 10.3 and 23.3.3).
#![tactic(auto)]

mod assigns;
mod joins;
mod parts;
mod ports;
mod signals;
mod whole;
mod works;

pub use sv_names::key_of;
pub use whole::elaborate;
