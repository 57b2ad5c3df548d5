//! The words of a command: `prove DESIGN TABLE GOALS [--top M] [--budget N]`, `sim DESIGN TABLE VALUES [--top M] [--vcd]`,
//! `dump DESIGN [--top M]`, `selftest N`, `cert DESIGN TABLE GOALS GOAL [--top M] [--budget N]`, `check CERT`,
//! `induct DESIGN RESET PERIOD INVS [--top M] [--budget N]` or `wave VCD PATH`.
#![tactic(auto)]

mod command;
mod naming;
mod positionals;
mod scan;
mod settings;
mod verbs;

pub use command::{Command, command_of};
