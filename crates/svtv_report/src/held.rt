// What is said of an invariant over any number of periods.
use fourvec::Four;
use items::Items;

/// What is said of an invariant: its claims hold at the end of the reset and of each period; they are broken by the reset under this choice
/// of its variables, or by a period under this choice of its own, from a valuation in which they hold; or a question was left behind so
/// many steps.
pub enum Held {
    Invariant,
    BaseFails(Items<Four>),
    StepFails(Items<Four>),
    Undecided(u64),
}

impl Drop for Held {
    fn drop(self) {
        match self {
            Held::Invariant => {}
            Held::BaseFails(_) => {}
            Held::StepFails(_) => {}
            Held::Undecided(_) => {}
        }
    }
}
