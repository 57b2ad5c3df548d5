// What stands behind the first part of a tree.
use items::Items;
use sv_tree::{One, Pins, Range, Word};

/// What stands behind the first name of an item, where it names a module or a type.
#[derive(Drop)]
pub enum NameTail {
    /// Overrides, and instances.
    Overridden(Option<Pins>, Items<One>),
    /// One or more ranges of the type, and the names of variables.
    Ranged(Items<Range>, Items<Word>),
    /// A name, and what stands behind it.
    Plain(Word, PlainTail),
}

/// What stands behind the second name of an item.
#[derive(Drop)]
pub enum PlainTail {
    /// The connections of the instance of that name, and more instances.
    Instances(Option<Pins>, Items<One>),
    /// More names of variables.
    Variables(Items<Word>),
}
