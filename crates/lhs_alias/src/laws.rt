ghost use Rattle.lhs_alias.specs.Pairs.{LinkedIsReflexive, LinkedIsSymmetric, LinkedIsTransitive, FirstIsUnique};

/// Being linked by pairs is an equivalence.
pub fn linked_is_equivalence()
    ensures reflexive { LinkedIsReflexive }
    ensures symmetric { LinkedIsSymmetric }
    ensures transitive { LinkedIsTransitive }
{}

/// Where every pair goes from a higher wire to a lower one and no bit is the child of two pairs, a
/// bit has at most one first bit.
pub fn first_is_unique()
    ensures { FirstIsUnique }
{}
