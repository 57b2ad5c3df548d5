//! Value change dumps as text: read, and the changes of one signal. The changes are no list: they are read again from the text,
//! one at each call (a pull parser).
#![tactic(auto)]

mod changes;
mod declarations;
mod forms;
mod mode;
mod read;
mod role;
mod scan;
mod signal;
mod values;
mod waves;
mod word;

pub use changes::Changes;
pub use read::read_vcd;
pub use scan::WrittenChange;
pub use signal::{SignalChanges, changes_of, signal_changes};
pub use waves::{VarKind, VcdVar, Waves};
