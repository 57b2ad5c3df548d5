//! Typed expressions as nodes (IEEE 1800-2017, 11.6.2, 11.8.2): each form by itself, in the context of its size and sign. Nothing is
//! refused here but for want of memory, since typing resolved names, sizes and constants before.
ghost use Rattle.std.specs.Prelude.{◌≡◌, ℕ, ◌<◌, ◌≤◌, ◌*◌, max, Bool, ◌&&◌, length, take, IfOk, IsTrue};
ghost use Rattle.std.specs.List.{All};
ghost use Rattle.fourvec.specs.declared.Bit.{Bit};
ghost use Rattle.svex_shape.specs.declared.shape.VarName.{VarName};
ghost use Rattle.svex_shape.specs.Shapes.{width_at};
ghost use Rattle.svex_shape.specs.Values.{value_at, each_variable};
ghost use Rattle.svex_arena.specs.Arenas.{Extends};
ghost use Rattle.driver_resolve.specs.Drivers.{bitwise};
ghost use Rattle.sv_meaning.specs.Meanings.{nowhere};
ghost use Rattle.sv_typed.specs.declared.tree.TypedForm.TheVariants.{Named, Turned, Reduced, Computed, Moved, Compared, Combined, Chosen, Concat, Repeat, Standing, Fitted};
ghost use Rattle.sv_typed.specs.declared.tree.Typed.{Typed};
ghost use Rattle.sv_typed.specs.Typed.{worth, width_together, root_width, picked_width, IsWidth, IsSound, PickIsSound};
ghost use Rattle.sv_lower.specs.Nodes.{IsConstant};
ghost use Rattle.sv_lower.specs.Lowering.{look_read, look_test, each_signal, IsIn, Fits, Lowers, LowersParts, LowersPick, LowersPicks};

use crate::Look;
use crate::constants::is_nameless;
use crate::names::root_node;
use crate::operators::{chosen, combined, compared, computed, moved, reduced, turned};
use crate::parts::{beside, place_at, repeated, sliced, windowed};
use crate::places::{part_at, part_at_constant};
use crate::sizes::{extended, fitted};
use crate::steps::constant;
use std::alloc::{AllocError, Global};
use sv_typed::{
    Arithmetic, Comparison, Logic, Pick, PickPlace, Reduction, Root, Shift, Turn, Typed, TypedForm,
};
use svex_arena::{Arena, Node};

// The size and sign of a context (11.6.1, 11.8.1).
#[derive(Clone, Copy)]
struct Context {
    width: u8,
    signed: bool,
}

// The context of an expression by itself.
fn own(typed: &Typed) -> Context
    ensures width { result.width ≡ typed.now.width }
    ensures signed { result.signed ≡ typed.now.signed }
{
    Context {
        width: typed.width,
        signed: typed.signed,
    }
}

// The context that two operands make for each other.
fn common(x: &Typed, y: &Typed) -> Context
    ensures width { result.width ≡ max x.now.width y.now.width }
    ensures signed { result.signed ≡ (x.now.signed && y.now.signed) }
{
    Context {
        width: x.width.max(y.width),
        signed: x.signed && y.signed,
    }
}

// The node of an expression that names no signal where it is evaluated.
fn valued(alloc: Global, arena: &mut Arena, typed: &Typed, at: Context) -> Result<Node, AllocError>
    requires { Fits typed.now at.width }
    ensures stays { Extends arena.old arena.new }
    ensures ok { IfOk result (λ n. IsConstant arena.new (worth typed.now nowhere at.width at.signed) n) }
    ensures long { length (worth typed.now nowhere at.width at.signed) ≡ at.width }
{
    constant(alloc, arena, &typed.value(at.width, at.signed))
}

// The node of an expression, each form by itself.
#[cycle(lower)]
fn lower_in(
    alloc: Global,
    arena: &mut Arena,
    typed: &Typed,
    look: &Look<'_>,
    at: Context,
) -> Result<Node, AllocError>
    requires fits { Fits typed.now at.width }
    requires look { IsIn look.now arena.old }
    ensures stays { Extends arena.old arena.new }
    ensures ok { IfOk result (λ n. Lowers look.now arena.old arena.new typed.now at.width at.signed n) }
{
    match &typed.form {
        TypedForm::Literal(_) => valued(alloc, arena, typed, at),
        TypedForm::Power(_, _) => valued(alloc, arena, typed, at),
        TypedForm::Named { root, picks } => {
            if typed.constant && is_nameless(typed) {
                return valued(alloc, arena, typed, at);
            }
            lower_named(alloc, arena, root, picks.as_slice(), look, at)
        }
        TypedForm::Turned(op, a) => lower_turned(alloc, arena, *op, a.get(), look, at),
        TypedForm::Reduced(op, a) => lower_reduced(alloc, arena, *op, a.get(), look, at),
        TypedForm::Computed(op, a, b) => {
            lower_computed(alloc, arena, *op, a.get(), b.get(), look, at)
        }
        TypedForm::Moved(op, a, b) => lower_moved(alloc, arena, *op, a.get(), b.get(), look, at),
        TypedForm::Compared(op, a, b) => {
            lower_compared(alloc, arena, *op, a.get(), b.get(), look, at)
        }
        TypedForm::Combined(op, a, b) => {
            lower_combined(alloc, arena, *op, a.get(), b.get(), look, at)
        }
        TypedForm::Chosen(c, a, b) => {
            lower_chosen(alloc, arena, c.get(), a.get(), b.get(), look, at)
        }
        TypedForm::Concat(all) => lower_concat(alloc, arena, all.as_slice(), look, at),
        TypedForm::Repeat(count, all) => {
            lower_repeat(alloc, arena, *count, all.as_slice(), look, at)
        }
        TypedForm::Standing(a) => lower_standing(alloc, arena, a.get(), look, at),
        TypedForm::Fitted(a) => lower_fitted(alloc, arena, a.get(), typed.width, look, at),
    }
}

// A constant or a signal with its selects.
#[cycle(lower)]
fn lower_named(
    alloc: Global,
    arena: &mut Arena,
    root: &Root,
    picks: &[Pick],
    look: &Look<'_>,
    at: Context,
) -> Result<Node, AllocError>
    requires root { IsWidth (root_width root.now) }
    requires sound { All PickIsSound picks.now }
    requires fits { picked_width picks.now (root_width root.now) ≤ at.width }
    requires most { at.width ≤ 128 }
    requires look { IsIn look.now arena.old }
    ensures stays { Extends arena.old arena.new }
    ensures ok { (t : Typed) → t.form ≡ Named root.now picks.now → IfOk result (λ n. Lowers look.now arena.old arena.new t at.width at.signed n) }
{
    let whole = root_node(alloc, arena, root, look)?;
    let part = lower_picks(alloc, arena, picks, look, whole)?;
    extended(alloc, arena, part, at.width, at.signed)
}

// An operator on one operand in the context.
#[cycle(lower)]
fn lower_turned(
    alloc: Global,
    arena: &mut Arena,
    op: Turn,
    a: &Typed,
    look: &Look<'_>,
    at: Context,
) -> Result<Node, AllocError>
    requires fits { Fits a.now at.width }
    requires look { IsIn look.now arena.old }
    ensures stays { Extends arena.old arena.new }
    ensures ok { (t : Typed) → t.form ≡ Turned op a.now → IfOk result (λ n. Lowers look.now arena.old arena.new t at.width at.signed n) }
{
    let a = lower_in(alloc, arena, a, look, at)?;
    turned(alloc, arena, op, a)
}

// An operator of one bit on an operand by itself.
#[cycle(lower)]
fn lower_reduced(
    alloc: Global,
    arena: &mut Arena,
    op: Reduction,
    a: &Typed,
    look: &Look<'_>,
    at: Context,
) -> Result<Node, AllocError>
    requires sound { IsSound a.now }
    requires some { 1 ≤ at.width }
    requires most { at.width ≤ 128 }
    requires look { IsIn look.now arena.old }
    ensures stays { Extends arena.old arena.new }
    ensures ok { (t : Typed) → t.form ≡ Reduced op a.now → IfOk result (λ n. Lowers look.now arena.old arena.new t at.width at.signed n) }
{
    let a = lower_in(alloc, arena, a, look, own(a))?;
    let bit = reduced(alloc, arena, op, a)?;
    extended(alloc, arena, bit, at.width, at.signed)
}

// An operator on two operands in the context.
#[cycle(lower)]
fn lower_computed(
    alloc: Global,
    arena: &mut Arena,
    op: Arithmetic,
    a: &Typed,
    b: &Typed,
    look: &Look<'_>,
    at: Context,
) -> Result<Node, AllocError>
    requires left { Fits a.now at.width }
    requires right { Fits b.now at.width }
    requires look { IsIn look.now arena.old }
    ensures stays { Extends arena.old arena.new }
    ensures ok { (t : Typed) → t.form ≡ Computed op a.now b.now → IfOk result (λ n. Lowers look.now arena.old arena.new t at.width at.signed n) }
{
    let a = lower_in(alloc, arena, a, look, at)?;
    let b = lower_in(alloc, arena, b, look, at)?;
    computed(alloc, arena, op, at.signed, a, b)
}

// A shift of an operand in the context by an amount by itself.
#[cycle(lower)]
fn lower_moved(
    alloc: Global,
    arena: &mut Arena,
    op: Shift,
    a: &Typed,
    b: &Typed,
    look: &Look<'_>,
    at: Context,
) -> Result<Node, AllocError>
    requires left { Fits a.now at.width }
    requires amount { IsSound b.now }
    requires look { IsIn look.now arena.old }
    ensures stays { Extends arena.old arena.new }
    ensures ok { (t : Typed) → t.form ≡ Moved op a.now b.now → IfOk result (λ n. Lowers look.now arena.old arena.new t at.width at.signed n) }
{
    let by = own(b);
    let a = lower_in(alloc, arena, a, look, at)?;
    let b = lower_in(alloc, arena, b, look, by)?;
    moved(alloc, arena, op, at.signed, a, b)
}

// A comparison of two operands at the size and sign that they make for each other.
#[cycle(lower)]
fn lower_compared(
    alloc: Global,
    arena: &mut Arena,
    op: Comparison,
    a: &Typed,
    b: &Typed,
    look: &Look<'_>,
    at: Context,
) -> Result<Node, AllocError>
    requires left { IsSound a.now }
    requires right { IsSound b.now }
    requires some { 1 ≤ at.width }
    requires most { at.width ≤ 128 }
    requires look { IsIn look.now arena.old }
    ensures stays { Extends arena.old arena.new }
    ensures ok { (t : Typed) → t.form ≡ Compared op a.now b.now → IfOk result (λ n. Lowers look.now arena.old arena.new t at.width at.signed n) }
{
    let size = common(a, b);
    let a = lower_in(alloc, arena, a, look, size)?;
    let b = lower_in(alloc, arena, b, look, size)?;
    let bit = compared(alloc, arena, op, size.signed, a, b)?;
    extended(alloc, arena, bit, at.width, at.signed)
}

// An operator on the truth of two operands, each by itself.
#[cycle(lower)]
fn lower_combined(
    alloc: Global,
    arena: &mut Arena,
    op: Logic,
    a: &Typed,
    b: &Typed,
    look: &Look<'_>,
    at: Context,
) -> Result<Node, AllocError>
    requires left { IsSound a.now }
    requires right { IsSound b.now }
    requires some { 1 ≤ at.width }
    requires most { at.width ≤ 128 }
    requires look { IsIn look.now arena.old }
    ensures stays { Extends arena.old arena.new }
    ensures ok { (t : Typed) → t.form ≡ Combined op a.now b.now → IfOk result (λ n. Lowers look.now arena.old arena.new t at.width at.signed n) }
{
    let a = lower_in(alloc, arena, a, look, own(a))?;
    let b = lower_in(alloc, arena, b, look, own(b))?;
    let bit = combined(alloc, arena, op, a, b)?;
    extended(alloc, arena, bit, at.width, at.signed)
}

// A condition by itself, and two operands in the context.
#[cycle(lower)]
fn lower_chosen(
    alloc: Global,
    arena: &mut Arena,
    condition: &Typed,
    a: &Typed,
    b: &Typed,
    look: &Look<'_>,
    at: Context,
) -> Result<Node, AllocError>
    requires condition { IsSound condition.now }
    requires left { Fits a.now at.width }
    requires right { Fits b.now at.width }
    requires look { IsIn look.now arena.old }
    ensures stays { Extends arena.old arena.new }
    ensures ok { (t : Typed) → t.form ≡ Chosen condition.now a.now b.now → IfOk result (λ n. Lowers look.now arena.old arena.new t at.width at.signed n) }
{
    let c = lower_in(alloc, arena, condition, look, own(condition))?;
    let a = lower_in(alloc, arena, a, look, at)?;
    let b = lower_in(alloc, arena, b, look, at)?;
    chosen(alloc, arena, c, a, b)
}

// Parts side by side, extended to the context.
#[cycle(lower)]
fn lower_concat(
    alloc: Global,
    arena: &mut Arena,
    parts: &[Typed],
    look: &Look<'_>,
    at: Context,
) -> Result<Node, AllocError>
    requires some { 0 < length parts.now }
    requires sound { All IsSound parts.now }
    requires fits { width_together parts.now ≤ at.width }
    requires most { at.width ≤ 128 }
    requires look { IsIn look.now arena.old }
    ensures stays { Extends arena.old arena.new }
    ensures ok { (t : Typed) → t.form ≡ Concat parts.now → IfOk result (λ n. Lowers look.now arena.old arena.new t at.width at.signed n) }
{
    let whole = lower_parts(alloc, arena, parts, look)?;
    extended(alloc, arena, whole, at.width, at.signed)
}

// So many copies of parts side by side, extended to the context.
#[cycle(lower)]
fn lower_repeat(
    alloc: Global,
    arena: &mut Arena,
    count: u8,
    parts: &[Typed],
    look: &Look<'_>,
    at: Context,
) -> Result<Node, AllocError>
    requires copies { 0 < count }
    requires some { 0 < length parts.now }
    requires sound { All IsSound parts.now }
    requires each { width_together parts.now ≤ 128 }
    requires fits { count * width_together parts.now ≤ at.width }
    requires most { at.width ≤ 128 }
    requires look { IsIn look.now arena.old }
    ensures stays { Extends arena.old arena.new }
    ensures ok { (t : Typed) → t.form ≡ Repeat count parts.now → IfOk result (λ n. Lowers look.now arena.old arena.new t at.width at.signed n) }
{
    let whole = lower_parts(alloc, arena, parts, look)?;
    let copies = repeated(alloc, arena, whole, count)?;
    extended(alloc, arena, copies, at.width, at.signed)
}

// An operand by itself, extended to the context by its sign there.
#[cycle(lower)]
fn lower_standing(
    alloc: Global,
    arena: &mut Arena,
    a: &Typed,
    look: &Look<'_>,
    at: Context,
) -> Result<Node, AllocError>
    requires sound { IsSound a.now }
    requires fits { a.now.width ≤ at.width }
    requires most { at.width ≤ 128 }
    requires look { IsIn look.now arena.old }
    ensures stays { Extends arena.old arena.new }
    ensures ok { (t : Typed) → t.form ≡ Standing a.now → IfOk result (λ n. Lowers look.now arena.old arena.new t at.width at.signed n) }
{
    let a = lower_in(alloc, arena, a, look, own(a))?;
    extended(alloc, arena, a, at.width, at.signed)
}

// An operand by itself, extended by its own sign or cut to a width, and then extended to the context.
#[cycle(lower)]
fn lower_fitted(
    alloc: Global,
    arena: &mut Arena,
    a: &Typed,
    width: u8,
    look: &Look<'_>,
    at: Context,
) -> Result<Node, AllocError>
    requires sound { IsSound a.now }
    requires some { 0 < width }
    requires fits { width ≤ at.width }
    requires most { at.width ≤ 128 }
    requires look { IsIn look.now arena.old }
    ensures stays { Extends arena.old arena.new }
    ensures ok { (t : Typed) → t.width ≡ width → t.form ≡ Fitted a.now → IfOk result (λ n. Lowers look.now arena.old arena.new t at.width at.signed n) }
{
    let signed = a.signed;
    let a = lower_in(alloc, arena, a, look, own(a))?;
    let part = fitted(alloc, arena, a, width, signed)?;
    extended(alloc, arena, part, at.width, at.signed)
}

// Parts side by side, the first the most significant.
#[tactic(auto, using(svex_arena::proofs::Keeping::extends_on))]
#[cycle(lower)]
fn lower_parts(
    alloc: Global,
    arena: &mut Arena,
    parts: &[Typed],
    look: &Look<'_>,
) -> Result<Node, AllocError>
    requires some { 0 < length parts.now }
    requires sound { All IsSound parts.now }
    requires most { width_together parts.now ≤ 128 }
    requires look { IsIn look.now arena.old }
    ensures stays { Extends arena.old arena.new }
    ensures ok { IfOk result (λ n. LowersParts look.now arena.old arena.new parts.now n) }
{
    let mut whole = lower_in(alloc, arena, &parts[0], look, own(&parts[0]))?;
    'parts: for i in 1..parts.len() {
        let part = lower_in(alloc, arena, &parts[i], look, own(&parts[i]))?;
        whole = beside(alloc, arena, whole, part)?;
    }
    Ok(whole)
}

// What a chain of selects reads of a node.
#[tactic(auto, using(svex_arena::proofs::Keeping::extends_on))]
#[cycle(lower)]
fn lower_picks(
    alloc: Global,
    arena: &mut Arena,
    picks: &[Pick],
    look: &Look<'_>,
    of: Node,
) -> Result<Node, AllocError>
    requires sound { All PickIsSound picks.now }
    requires of { of < length arena.old }
    requires look { IsIn look.now arena.old }
    ensures stays { Extends arena.old arena.new }
    ensures ok { IfOk result (λ n. LowersPicks look.now arena.old arena.new picks.now of n) }
{
    let mut part = of;
    'picks: for pick in picks {
        part = lower_pick(alloc, arena, pick, look, part)?;
    }
    Ok(part)
}

// A part of a node.
#[tactic(auto, using(svex_arena::proofs::Keeping::extends_on))]
#[cycle(lower)]
fn lower_pick(
    alloc: Global,
    arena: &mut Arena,
    pick: &Pick,
    look: &Look<'_>,
    of: Node,
) -> Result<Node, AllocError>
    requires sound { PickIsSound pick.now }
    requires of { of < length arena.old }
    requires look { IsIn look.now arena.old }
    ensures stays { Extends arena.old arena.new }
    ensures ok { IfOk result (λ n. LowersPick look.now arena.old arena.new pick.now of n) }
{
    match &pick.place {
        PickPlace::Fixed(number) => windowed(alloc, arena, of, place_at(*number), pick.width),
        PickPlace::Moving { index, spot } => {
            let index = index.get();
            if index.constant && is_nameless(index) {
                return part_at_constant(alloc, arena, of, &index.own(), spot);
            }
            let at = lower_in(alloc, arena, index, look, own(index))?;
            part_at(alloc, arena, of, at, spot)
        }
    }
}

/// The node of a typed expression in a context of so many bits and such a sign, where names read so.
///
/// It is lowered as written, the left operand first, with an extension or a part only where a width changes. A literal or a
/// constant is one node, and so is a power.
pub fn lower(
    alloc: Global,
    arena: &mut Arena,
    typed: &Typed,
    look: &Look<'_>,
    width: u8,
    signed: bool,
) -> Result<Node, AllocError>
    requires sound { IsSound typed.now }
    requires fits { typed.now.width ≤ width }
    requires most { width ≤ 128 }
    requires look { IsIn look.now arena.old }
    ensures stays { Extends arena.old arena.new }

    // The node has the width, and has the bits of the expression whatever bits variables have.
    ensures within { IfOk result (λ n. n < length arena.new) }
    ensures width { IfOk result (λ n. width_at arena.new n ≡ width) }
    ensures value { IfOk result (λ n. (bits : VarName → ℕ → Bit)
        → value_at (bitwise bits) arena.new n ≡ worth typed.now (look_read look.now arena.old bits) width signed) }

    // It mentions only what the names of the expression read.
    ensures mentions { IfOk result (λ n. (p : VarName → ℕ → Bool)
        → IsTrue (each_signal (look_test look.now arena.old p) typed.now) → IsTrue (each_variable p arena.new n)) }
{
    lower_in(alloc, arena, typed, look, Context { width, signed })
}

/// The node of the right side of an assignment to so many bits: the expression is evaluated at the larger of that width and its own,
/// by its own sign, and cut to the width (IEEE 1800-2017, 10.7).
#[tactic(auto, using(crate::proofs::Lowered::fits_wide, svex_arena::proofs::Keeping::extends_on))]
pub fn lower_assigned(
    alloc: Global,
    arena: &mut Arena,
    typed: &Typed,
    look: &Look<'_>,
    width: u8,
) -> Result<Node, AllocError>
    requires sound { IsSound typed.now }
    requires some { 0 < width }
    requires most { width ≤ 128 }
    requires look { IsIn look.now arena.old }
    ensures stays { Extends arena.old arena.new }
    ensures within { IfOk result (λ n. n < length arena.new) }
    ensures width { IfOk result (λ n. width_at arena.new n ≡ width) }
    ensures value { IfOk result (λ n. (bits : VarName → ℕ → Bit)
        → value_at (bitwise bits) arena.new n
        ≡ take width (worth typed.now (look_read look.now arena.old bits) (max width typed.now.width) typed.now.signed)) }
    ensures mentions { IfOk result (λ n. (p : VarName → ℕ → Bool)
        → IsTrue (each_signal (look_test look.now arena.old p) typed.now) → IsTrue (each_variable p arena.new n)) }
{
    let wide = Context {
        width: width.max(typed.width),
        signed: typed.signed,
    };
    let whole = lower_in(alloc, arena, typed, look, wide)?;
    let part = sliced(alloc, arena, whole, 0, width)?;
    Ok(part)
}
