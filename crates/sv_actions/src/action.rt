// Actions.
use items::Items;
use sv_targets::TypedTarget;
use sv_typed::Typed;

/// What a statement does to the store of its block.
#[cycle(action)]
pub enum Action {
    /// The value, as by an assignment to so many bits as the targets have together, is written into the targets, the first the most
    /// significant and written first (10.4).
    Assign(Items<TypedTarget>, Typed),
    /// One of two, by the truth of a condition. Where that is unknown a bit stays where both leave the same, and else it is X (12.4).
    Choose(Typed, Items<Action>, Items<Action>),
    /// The first arm with a label that equals the value, or else the rest (12.5).
    Match(Case, Items<Arm>, Items<Action>),
}

impl Drop for Action {
    #[cycle(action_drop)]
    fn drop(self) {
        match self {
            Action::Assign(_, _) => {}
            Action::Choose(_, _, _) => {}
            Action::Match(_, _, _) => {}
        }
    }
}

/// An arm of a case statement.
#[cycle(action)]
pub struct Arm {
    pub labels: Items<Typed>,
    pub body: Items<Action>,
}

impl Drop for Arm {
    #[cycle(action_drop)]
    fn drop(self) {
        let Arm { labels: _, body: _ } = self;
    }
}

/// What the labels of a case statement are compared with.
pub struct Case {
    /// Whether the Z bits of a label that is a literal are not compared (`casez`, 12.5.1).
    pub masked: bool,
    /// The length at which all are compared, 1 to 128, and whether all are signed.
    pub width: u8,
    pub signed: bool,
    pub value: Typed,
}

impl Drop for Case {
    fn drop(self) {
        let Case {
            masked: _,
            width: _,
            signed: _,
            value: _,
        } = self;
    }
}
