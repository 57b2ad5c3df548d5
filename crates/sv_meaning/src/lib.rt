//! What a design means, and why it has no meaning: definitions, and the laws over them.
//!
//! A design has wires, and what contributes to them (`Designs`). Each expression has a length, a sign and a
//! value (`Meanings`, `Values`), each statement changes a store (`Deeds`, `Blocks`), and a valuation settles where each class of
//! joined bits has the resolution of what is contributed to it. Where the rules give no meaning, faults say why (`Faults`).
#![tactic(auto)]

mod events;

ghost use Rattle.sv_meaning.specs.Laws.{ContributionsRise, LastIsFound, LeastSettlingExists, LeastSettlingRises, OthersStay};

pub use events::WireEdge;

/// Where the previous and the present valuation have more, each contribution has more, and it goes to the same bit.
pub fn contributions_rise()
    ensures { ContributionsRise }
{}

/// Over each previous valuation and stimulus a design has a settling below every settling, and it rises with both.
pub fn least_settling()
    ensures exists { LeastSettlingExists }
    ensures rises { LeastSettlingRises }
{}

/// A name stands for what was declared last under it, and a declaration changes no other name.
pub fn names_are_last_declared()
    ensures last { LastIsFound }
    ensures others { OthersStay }
{}
