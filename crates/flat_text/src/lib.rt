//! The text of a flat design, line by line: its wires, joins, nodes and drivers between `flat 1` and `end`; which design a text stands
//! for, and where a text that stands for none breaks the form. Here are the definitions, and what puts a line behind a text.
#![tactic(auto)]

mod lines;

pub use lines::{binary_name, push_drive, push_join, push_line, push_value, push_wire, unary_name};
