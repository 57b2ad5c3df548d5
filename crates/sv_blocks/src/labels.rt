// Labels of case statements: whether one equals what is compared (IEEE 1800-2017, 12.5). In `casez` the Z bits of a label are
// not compared: both sides are masked there. Only a literal shows its Z bits in the text, so only labels that are literals have
// a mask. What is compared is lowered once for each case statement, and its node is handed to all labels.
ghost use Rattle.std.specs.Prelude.{◌≡◌, ◌<◌, ◌≤◌, ◌-◌, ◌^◌, ◌++◌, List, All, length, IfOk, IfSome};
ghost use Rattle.fourvec.specs.declared.Bit.{Bit};
ghost use Rattle.fourvec.specs.Bits.{each};
ghost use Rattle.svex_shape.specs.Shapes.{width_at};
ghost use Rattle.svex_arena.specs.Arenas.{Extends};
ghost use Rattle.sv_meaning.specs.Deeds.{mask_bit, same_value};
ghost use Rattle.sv_typed.specs.Typed.{worth, names_of, names_together, literal_of};
ghost use Rattle.sv_lower.specs.Nodes.{FromTwo};
ghost use Rattle.sv_actions.specs.Doing.{label_equals, label_matches, CaseFits, LabelFits};
ghost use Rattle.sv_stores.specs.Scenes.{Narrow, IsScene, IsState, Yields};
ghost use Rattle.sv_blocks.specs.Fitting.{LabelSits};
ghost use Rattle.sv_blocks.specs.Masks.{equal_masked};

use fourvec::Four;
use std::alloc::{AllocError, Global};
use sv_actions::Case;
use sv_lower::{binary, constant};
use sv_stores::{Scene, State, lowered};
use sv_typed::{Typed, TypedForm};
use svex_arena::{Arena, Bin, Node};

// The number of which so many lowest bits are 1.
#[tactic(auto, using(fourvec::proofs::Planes::mask_is))]
fn ones(width: u8) -> u128
    requires some { 0 < width }
    requires most { width ≤ 128 }
    ensures { result ≡ 2 ^ width - 1 }
{
    u128::MAX >> (128 - width)
}

// 0 where a vector is Z, else 1.
fn mask(value: &Four) -> Four
    ensures { result ≡ each mask_bit value.now }
{
    let width = value.width();
    let some = (value.up() | !value.low()) & ones(width);
    Four::new(width, some, some)
}

// The mask of a label, where its Z bits are not compared.
fn mask_of(case: &Case, label: &Typed) -> Option<Four>
    requires case { case.now.width ≤ 128 }
    requires label { LabelFits case.now label.now }
    ensures equal { (a b : List Bit) → equal_masked result a b ≡ same_value case.now.masked case.now.width case.now.signed (literal_of label.now) a b }
    ensures wide { IfSome result (λ m. length m ≡ case.now.width) }
{
    match &label.form {
        TypedForm::Literal(_) => {
            if case.masked {
                Some(mask(&label.value(case.width, case.signed)))
            } else {
                None
            }
        }
        _ => None,
    }
}

// Whether two nodes are equal where a mask is 1, or everywhere where there is none.
#[tactic(auto, using(svex_arena::proofs::Keeping::extends_on))]
fn equal(
    alloc: Global,
    arena: &mut Arena,
    mask: Option<Four>,
    a: Node,
    b: Node,
) -> Result<Node, AllocError>
    requires a { a < length arena.old }
    requires b { b < length arena.old }
    requires same { width_at arena.old a ≡ width_at arena.old b }
    requires mask { IfSome mask (λ m. length m ≡ width_at arena.old a) }
    ensures stays { Extends arena.old arena.new }
    ensures ok { IfOk result (λ n. FromTwo arena.old arena.new (equal_masked mask) a b 1 n) }
{
    match mask {
        Some(mask) => {
            let mask = constant(alloc, arena, &mask)?;
            let a = binary(alloc, arena, Bin::And, a, mask)?;
            let b = binary(alloc, arena, Bin::And, b, mask)?;
            let node = binary(alloc, arena, Bin::Eq, a, b)?;
            Ok(node)
        }
        None => {
            let node = binary(alloc, arena, Bin::Eq, a, b)?;
            Ok(node)
        }
    }
}

/// The node of what a case statement compares.
pub fn compared(
    alloc: Global,
    arena: &mut Arena,
    scene: &Scene,
    state: &State,
    case: &Case,
) -> Result<Node, AllocError>
    requires scene { IsScene scene.now }
    requires state { IsState scene.now arena.old state.now }
    requires case { CaseFits case.now }
    requires narrow { Narrow scene.now (names_of case.now.value) }
    ensures stays { Extends arena.old arena.new }
    ensures ok { IfOk result (λ n. Yields scene.now arena.new arena.new state.now.nodes (λ read. worth case.now.value read case.now.width case.now.signed) (names_of case.now.value) case.now.width n) }
{
    lowered(
        alloc,
        arena,
        scene,
        state,
        &case.value,
        case.width,
        case.signed,
    )
}

// Whether a label equals what is compared.
fn label_equals(
    alloc: Global,
    arena: &mut Arena,
    scene: &Scene,
    state: &State,
    case: &Case,
    value: Node,
    label: &Typed,
) -> Result<Node, AllocError>
    requires scene { IsScene scene.now }
    requires state { IsState scene.now arena.old state.now }
    requires case { CaseFits case.now }
    requires label { LabelFits case.now label.now }
    requires value { Yields scene.now arena.old arena.old state.now.nodes (λ read. worth case.now.value read case.now.width case.now.signed) (names_of case.now.value) case.now.width value }
    requires sits { LabelSits scene.now label.now }
    ensures stays { Extends arena.old arena.new }
    ensures ok { IfOk result (λ n. Yields scene.now arena.old arena.new state.now.nodes (λ read. label_equals case.now read label.now) (names_of case.now.value ++ names_of label.now) 1 n) }
{
    let other = lowered(alloc, arena, scene, state, label, case.width, case.signed)?;
    let node = equal(alloc, arena, mask_of(case, label), value, other)?;
    Ok(node)
}

/// Whether one of the labels equals what is compared.
pub fn label_matches(
    alloc: Global,
    arena: &mut Arena,
    scene: &Scene,
    state: &State,
    case: &Case,
    value: Node,
    labels: &[Typed],
) -> Result<Node, AllocError>
    requires scene { IsScene scene.now }
    requires state { IsState scene.now arena.old state.now }
    requires case { CaseFits case.now }
    requires labels { All (LabelFits case.now) labels.now }
    requires value { Yields scene.now arena.old arena.old state.now.nodes (λ read. worth case.now.value read case.now.width case.now.signed) (names_of case.now.value) case.now.width value }
    requires sits { All (LabelSits scene.now) labels.now }
    ensures stays { Extends arena.old arena.new }
    ensures ok { IfOk result (λ n. Yields scene.now arena.old arena.new state.now.nodes (λ read. label_matches case.now read labels.now) (names_of case.now.value ++ names_together labels.now) 1 n) }
{
    let mut node = constant(alloc, arena, &Four::new(1, 0, 0))?;
    let mut at = labels.len();
    'labels: while at > 0 {
        at -= 1;
        let more = node;
        let here = label_equals(alloc, arena, scene, state, case, value, &labels[at])?;
        node = binary(alloc, arena, Bin::Or, here, more)?;
    }
    Ok(node)
}
