//! The texts that the tool prints: values, reports of goals and of invariants, messages, and what is said of certificates and of changes of
//! signals.
#![tactic(auto)]

mod certs;
mod held;
mod invariants;
mod message;
mod refusal;
mod value;
mod verdicts;
mod waveforms;

pub use certs::{cert_note, checked_text};
pub use held::Held;
pub use invariants::{Columns, invariants_text};
pub use message::{memory_text, read_fault_text, refusal_text, usage_text};
pub use verdicts::{Verdict, goal_report, report, samples_text};
pub use waveforms::push_change;
