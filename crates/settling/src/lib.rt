//! Which valuations of wires settle: joined bits are equal, and each class of joined bits has the resolution of what drivers and
//! stimuli give to its bits. Where what is given rises with the valuation, in an order in which X lies below all, what settles
//! are the fixpoints of a monotone function. There is a least one (Tarski, 1955), the least settling, and events come to it from
//! X on, in any order (chaotic iteration; Cousot and Cousot, 1977).
#![tactic(auto)]

ghost use Rattle.settling.specs.Settling.{FirstBitsTell};
ghost use Rattle.settling.specs.Least.{LeastExists, LeastRises};
ghost use Rattle.settling.specs.Events.{EventsStayBelow, EventsRaise, RestIsLeast};
ghost use Rattle.settling.specs.Overriding.{OverridingTells, NoneOverridden, OverridingRises};

/// Two bits are joined by a chain of links exactly where they have one first bit.
pub fn first_bits_tell()
    ensures { FirstBitsTell }
{}

/// Where what is given rises with the valuation, there is a settling below every settling, and where more is given it has more.
pub fn least_settling()
    ensures exists { LeastExists }
    ensures rises { LeastRises }
{}

/// From X at every bit on, and in any order: events stay below every settling, each raises bits or changes nothing, and where none
/// changes anything more, the valuation is the least settling.
pub fn events_reach_the_least_settling()
    ensures below { EventsStayBelow }
    ensures raise { EventsRaise }
    ensures rest { RestIsLeast }
{}

/// A class with an overridden bit has what overrides it alone, and any other class what it would have; where nothing is overridden,
/// all stays. It rises with what is given and with what overrides.
pub fn overriding_cuts()
    ensures tells { OverridingTells }
    ensures none { NoneOverridden }
    ensures rises { OverridingRises }
{}
