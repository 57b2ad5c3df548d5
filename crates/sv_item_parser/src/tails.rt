// What stands behind the first part of a tree.
use sv_tree::Events;

/// What stands behind the `@` of an `always`.
#[derive(Drop)]
pub enum AlwaysTail {
    /// `*`
    Star,
    /// `(*)`
    StarParen,
    /// The rest of a list of events.
    Events(Events),
}
