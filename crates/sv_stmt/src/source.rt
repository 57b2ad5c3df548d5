// Expressions of a source as nodes.
ghost use Rattle.std.specs.Prelude.{◌≡◌, ℕ, ◌<◌, ◌≤◌, Bool, false, [], length, IfOk, IfErr, IsTrue};
ghost use Rattle.fourvec.specs.declared.Bit.{Bit};
ghost use Rattle.svex_shape.specs.declared.shape.VarName.{VarName};
ghost use Rattle.svex_shape.specs.Shapes.{width_at};
ghost use Rattle.svex_shape.specs.Values.{value_at, each_variable};
ghost use Rattle.svex_arena.specs.Arenas.{Extends};
ghost use Rattle.driver_resolve.specs.Drivers.{bitwise};
ghost use Rattle.sv_meaning.specs.Meanings.{assigned};
ghost use Rattle.sv_meaning.specs.Values.{mean};
ghost use Rattle.sv_typing.specs.Judging.{IsCause};
ghost use Rattle.sv_names.specs.Names.{names_are};
ghost use Rattle.sv_lower.specs.declared.look.Look.{Look};
ghost use Rattle.sv_lower.specs.Lowering.{look_read, HoldsOfNames};

use std::alloc::Global;
use sv_lower::{Look, lower_assigned};
use sv_names::Names;
use sv_outside::TextErr;
use sv_tree::Expr;
use sv_typing::{Position, typed};
use svex_arena::{Arena, Node};

/// The node of the right side of a continuous or port assignment to so many bits (1 to 128), over the names of its place; or why it
/// is refused: E2, E12, E14, E15, E16, E23 or E25.
///
/// Names read their present values. The expression is evaluated at the larger of that width and its own size, by its own
/// sign, and cut to the width (IEEE 1800-2017, 10.7).
pub fn lower_expr(
    alloc: Global,
    arena: &mut Arena,
    expr: &Expr,
    names: &Names<'_>,
    width: u8,
) -> Result<Node, TextErr>
    requires some { 0 < width }
    requires most { width ≤ 128 }
    ensures stays { Extends arena.old arena.new }

    // The node stands where nothing is against the expression, and has the bits that are assigned, whatever bits variables have.
    ensures clear { IfOk result (λ _. (mean (names_are names.now) expr.now).faults false ≡ []) }
    ensures within { IfOk result (λ n. n < length arena.new) }
    ensures width { IfOk result (λ n. width_at arena.new n ≡ width) }
    ensures value { IfOk result (λ n. (bits : VarName → ℕ → Bit)
        → value_at (bitwise bits) arena.new n
        ≡ assigned (mean (names_are names.now) expr.now) (look_read Look.Present arena.old bits) width) }

    // It mentions only signals that the expression names, at the widths that they are declared with.
    ensures mentions { IfOk result (λ n. (p : VarName → ℕ → Bool)
        → HoldsOfNames (mean (names_are names.now) expr.now).names p → IsTrue (each_variable p arena.new n)) }
    ensures cause { IfErr result (λ e. IsCause ((mean (names_are names.now) expr.now).faults false) e) }
{
    match typed(alloc, expr, names, Position::Free) {
        Ok(tree) => {
            let node = lower_assigned(alloc, arena, &tree, &Look::Present, width);
            drop(tree);
            let node = node?;
            Ok(node)
        }
        Err(e) => Err(e),
    }
}
