//! The trees of the source language, and the grammar that ties a tree to the tokens that spell it.
//!
//! There is one type for each production of the grammar, with a variant for each alternative and a field for each
//! part in the order written. Sections are those of IEEE 1800-2017, annex A, cut to what the tool reads.
//! A tree keeps the place of a token wherever a refusal may have to name it.
#![tactic(auto)]

mod design;
mod exprs;
mod forms;
mod parts;
mod stmts;
mod word;

pub use design::{
    AssignPair, Gen, Inst, Item, Module, NamedPin, NetWord, One, ParPort, Param, ParamBits,
    ParamItem, ParamType, ParamWord, Pin, Pins, Port, Source, SourcePart, Way,
};
pub use exprs::{BinaryOp, Expr, RangeMark, Select, Sign, SystemName, UnaryOp};
pub use forms::{BitsWord, EnumLabel, Member, Range, TypeTree, Typedef, WholeWord};
pub use stmts::{
    Arm, AssignMark, Block, BlockKind, CaseWord, Edge, Event, EventMark, Events, Lvalue, NextEvent,
    Step, StepMark, StepSign, Stmt, Uniq,
};
pub use word::Word;
