//! The laws of values. What these functions run does nothing: their contracts are the laws, of the arena that is given.

ghost use Rattle.std.specs.Prelude.{◌≡◌, ℕ, ◌<◌, Bool, List, length, IsTrue};
ghost use Rattle.fourvec.specs.Laws.{Below};
ghost use Rattle.svex_shape.specs.declared.shape.VarName.{VarName};
ghost use Rattle.svex_shape.specs.declared.shape.Shape.{Shape};
ghost use Rattle.svex_shape.specs.Shapes.{shape_at, width_at, width_of};
ghost use Rattle.svex_shape.specs.Values.{Rows, Reading, HasWidthsWhere, AgreesWhere, IsBelowWhere, RowsBelow, value_of, value_at, each_variable_of, each_variable, read};
ghost use Rattle.svex_arena.specs.Arenas.{Extends};

use crate::arena::Arena;

/// The width, the value and the variables of a node are those of its shape over its children.
#[tactic(auto, using(crate::proofs::Steps::steps))]
pub fn nodes_follow_shapes(arena: &Arena)
    ensures widths { (k : ℕ) → k < length arena.now
        → width_at arena.now k ≡ width_of (width_at arena.now) (shape_at arena.now k) }
    ensures values { (r : Reading) (k : ℕ) → k < length arena.now
        → value_at r arena.now k ≡ value_of r (value_at r arena.now) (shape_at arena.now k) }
    ensures variables { (p : VarName → ℕ → Bool) (k : ℕ) → k < length arena.now
        → each_variable p arena.now k ≡ each_variable_of p (each_variable p arena.now) (shape_at arena.now k) }
{
    // For the proof: recalls what the type promises of it.
    let _ = arena.len();
}

/// The nodes of an arena keep their widths, values and variables as it grows.
#[tactic(auto, using(crate::proofs::Steps::kept_steps))]
pub fn nodes_stay()
    ensures widths { (old new : List Shape) (k : ℕ) → Extends old new → k < length old
        → width_at new k ≡ width_at old k }
    ensures values { (r : Reading) (old new : List Shape) (k : ℕ) → Extends old new → k < length old
        → value_at r new k ≡ value_at r old k }
    ensures variables { (p : VarName → ℕ → Bool) (old new : List Shape) (k : ℕ) → Extends old new → k < length old
        → each_variable p new k ≡ each_variable p old k }
{}

/// A node's value has the node's width, where the variables that it mentions have theirs.
#[tactic(auto, using(crate::proofs::Lifted::values_have_widths))]
pub fn values_have_widths(arena: &Arena)
    ensures { (p : VarName → ℕ → Bool) (r : Reading) (k : ℕ)
        → HasWidthsWhere p r → k < length arena.now → IsTrue (each_variable p arena.now k)
        → length (value_at r arena.now k) ≡ width_at arena.now k }
{
    // For the proof: recalls what the type promises of it.
    let _ = arena.len();
}

/// A node's value rises with the values of the variables that it mentions.
#[tactic(auto, using(crate::proofs::Lifted::values_rise, crate::proofs::Lifted::rows_rise))]
pub fn values_rise(arena: &Arena)
    ensures readings { (p : VarName → ℕ → Bool) (r s : Reading) (k : ℕ)
        → HasWidthsWhere p r → IsBelowWhere p r s → k < length arena.now → IsTrue (each_variable p arena.now k)
        → Below (value_at r arena.now k) (value_at s arena.now k) }
    ensures rows { (e f : Rows) (k : ℕ) → RowsBelow e f → k < length arena.now
        → Below (value_at (read e) arena.now k) (value_at (read f) arena.now k) }
{
    // For the proof: recalls what the type promises of it.
    let _ = arena.len();
}

/// A node's value depends only on the variables that it mentions.
#[tactic(auto, using(crate::proofs::Lifted::values_alike))]
pub fn values_depend_on_mentioned(arena: &Arena)
    ensures { (p : VarName → ℕ → Bool) (r s : Reading) (k : ℕ)
        → AgreesWhere p r s → k < length arena.now → IsTrue (each_variable p arena.now k)
        → value_at r arena.now k ≡ value_at s arena.now k }
{
    // For the proof: recalls what the type promises of it.
    let _ = arena.len();
}
