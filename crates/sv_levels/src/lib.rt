//! What a walk through the items of a design finds, by parts (IEEE 1800-2017, 6.20, 23 and 27): scopes as levels, each with its
//! nets and its constants, and places in them; the count of bits and turns; tasks and the instances that are still to be opened;
//! what is given to parameters; ports and what they are connected to; and the modules of a text by number.
//!
//! Levels, nets and constants are only added at the end of lists, and a place is two counts, so what a place sees is read from the
//! levels at any time later.
#![tactic(auto)]

mod fronts;
mod held;
mod levels;
mod library;
mod loops;
mod overrides;
mod params;
mod ports;
mod tally;
mod tasks;
mod texts;
mod wires;

pub use fronts::{Fronts, outermost, within};
pub use held::let_go;
pub use levels::{Front, Instance, Level, Levels};
pub use library::{Known, Library, Wiring, wiring_of};
pub use loops::{Turns, index_scope, is_loop_variable};
pub use overrides::Overrides;
pub use params::{entry_kind, entry_word, given_to, kind_at, value_at, value_of};
pub use ports::{OpenPort, add_port_works, given_by, is_bare, is_read, ports_of};
pub use tally::Tally;
pub use tasks::{Actual, Child, Given, Task, Work};
pub use texts::{block_name, block_place, is_name, turn_name};
pub use wires::Wires;
