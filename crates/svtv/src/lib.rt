//! The top call: the words, the command over its files, the text.
#![tactic(auto)]

mod status;
mod top;
mod work;

pub use status::Status;
pub use svtv_report::{Verdict, report};
pub use top::svtv;
