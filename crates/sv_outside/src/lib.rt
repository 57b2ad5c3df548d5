//! What the tool reads and writes, and the names, places and refusals that its layers share.
#![tactic(auto)]

mod memory;
mod name;
mod outside;
mod real;
mod refusal;
pub mod refusals;
mod text;
mod words;

pub use memory::{MemFiles, MemSink};
pub use name::Name;
pub use outside::{FileErr, Files, MOST_BYTES, Sink, SinkErr, put_all};
pub use real::{RealFiles, RealSink};
pub use refusal::{FILE_START, Place, Refusal, TextErr};
pub use text::{Kind, Signal, Token, Tokens};
pub use words::is_id;
