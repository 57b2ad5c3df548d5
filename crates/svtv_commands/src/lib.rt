//! The commands over files: the design, the table and the goals or values are read in their turn, and then the proof is done,
//! or the simulation; of a dump, the design alone, which is printed. A self test proves goals over texts of its own. One goal can be
//! certified, and the text of a certificate is checked. Invariants are decided over the tables of a reset and of a period. Of a value change dump the changes of one signal are shown.
#![tactic(auto)]

mod certifying;
mod checking;
mod course;
mod design;
mod dumping;
mod goals;
mod inducting;
mod judging;
mod posing;
mod proving;
mod setup;
mod simulation;
mod table;
mod testing;
mod values;
mod waving;

pub use certifying::certify;
pub use checking::check;
pub use dumping::dump;
pub use inducting::induct;
pub use proving::prove;
pub use simulation::simulate;
pub use testing::selftest;
pub use waving::wave;
