//! What is said of a goal, and when it is right: the headline's own words. These are definitions; the laws over them say that they
//! leave room for one word.
#![tactic(auto)]

ghost use Rattle.svtv_verdicts.specs.Laws.{BudgetIsUsedUp, FailedIsNotProved, FailedIsNotVacuous, ProvedIsNotVacuous, SamplesAreOne};

/// Of proved, vacuous and failed one word at the most is right of a goal, a choice that fails has one list of samples to show, and a
/// goal is undecided only where a budget was given and used up.
pub fn one_word_is_right()
    ensures vacuous { ProvedIsNotVacuous }
    ensures failed { FailedIsNotProved }
    ensures failed_met { FailedIsNotVacuous }
    ensures samples { SamplesAreOne }
    ensures budget { BudgetIsUsedUp }
{}
