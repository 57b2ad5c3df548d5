// The bits that actions write, in the order of the text, each once at the last place where it is written. That is the order of
// a block's drivers. A bit is seen to be the last by going backwards and marking what is met, and the marks are kept: they also
// tell which bits names read from the store.
ghost use Rattle.std.specs.Prelude.{◌≡◌, ℕ, ◌<◌, length, false, List, ◌∷◌, ◌++◌, All, IfOk, OnOk};
ghost use Rattle.lhs_alias.specs.Segs.{bit};
ghost use Rattle.sv_actions.specs.Doing.{writes, writes_all, Fits, TargetFits};
ghost use Rattle.sv_meaning.specs.Targets.{present};
ghost use Rattle.sv_meaning.specs.Blocks.{has_bit, distinct};
ghost use Rattle.sv_targets.specs.Slots.{slots_of};
ghost use Rattle.sv_stores.specs.Scenes.{is_written, IsScene};
ghost use Rattle.sv_blocks.specs.Fitting.{BitSits};
ghost use Rattle.sv_blocks.specs.Running.{ArmFits, arms_bits};
ghost use Rattle.sv_blocks.specs.Declaring.{HasMarks, IsMarkOf, IsSoFar, IsMarked};

use items::Items;
use lhs_alias::WireBit;
use std::alloc::{AllocError, Global};
use sv_actions::{Action, Arm, Case};
use sv_stores::{Scene, place_of};
use sv_targets::{TypedTarget, all_slots};

// The bits that targets name, behind others.
fn target_bits(
    alloc: Global,
    targets: &[TypedTarget],
    bits: &mut Vec<WireBit>,
) -> Result<(), AllocError>
    requires { All TargetFits targets.now }
    ensures { OnOk result (bits.new.items ≡ bits.old.items ++ present (slots_of targets.now)) }
{
    let slots = all_slots(alloc, targets)?;
    'slots: for slot in slots.as_slice() {
        if let Some(bit) = slot {
            bits.push(*bit)?;
        }
    }
    Ok(())
}

#[cycle(bits)]
fn action_bits(alloc: Global, action: &Action, bits: &mut Vec<WireBit>) -> Result<(), AllocError>
    requires { Fits action.now }
    ensures { OnOk result (bits.new.items ≡ bits.old.items ++ writes action.now) }
{
    match action {
        Action::Assign(targets, _) => target_bits(alloc, targets.as_slice(), bits),
        Action::Choose(_, a, b) => {
            all_bits(alloc, a.as_slice(), bits)?;
            all_bits(alloc, b.as_slice(), bits)
        }
        Action::Match(case, arms, other) => {
            arm_bits(alloc, case, arms.as_slice(), bits)?;
            all_bits(alloc, other.as_slice(), bits)
        }
    }
}

/// The bits that actions write, behind others.
#[cycle(bits)]
pub fn all_bits(
    alloc: Global,
    actions: &[Action],
    bits: &mut Vec<WireBit>,
) -> Result<(), AllocError>
    requires { All Fits actions.now }
    ensures { OnOk result (bits.new.items ≡ bits.old.items ++ writes_all actions.now) }
{
    'actions: for action in actions {
        action_bits(alloc, action, bits)?;
    }
    Ok(())
}

#[cycle(bits)]
fn arm_bits(
    alloc: Global,
    case: &Case,
    arms: &[Arm],
    bits: &mut Vec<WireBit>,
) -> Result<(), AllocError>
    requires { All (ArmFits case.now) arms.now }
    ensures { OnOk result (bits.new.items ≡ bits.old.items ++ arms_bits arms.now) }
{
    // For the proof: recalls what the type promises of it.
    let _ = case.masked;
    'arms: for arm in arms {
        all_bits(alloc, arm.body.as_slice(), bits)?;
    }
    Ok(())
}

/// A scene with the bits marked that a block writes, and these bits in the order of the text, each at its last place.
#[derive(Drop)]
pub struct Marked {
    pub scene: Scene,
    pub bits: Items<WireBit>,
}

// The place of the mark of a bit.
fn mark_place(scene: &Scene, bit: &WireBit) -> usize
    requires scene { IsScene scene.now }
    requires marks { HasMarks scene.now }
    requires bit { BitSits scene.now bit.now }
    ensures is { IsMarkOf scene.now bit.now result }
    ensures within { result < length scene.now.marks }
{
    // For the proof: recalls what the type promises of it.
    let _ = scene.marks.len();
    let at = place_of(scene, bit.wire);
    at * 128 + bit.at as usize
}

// Marks a bit, and puts it behind others where it was not marked before.
fn mark_bit(scene: &mut Scene, bit: &WireBit, bits: &mut Vec<WireBit>) -> Result<(), AllocError>
    requires scene { IsScene scene.old }
    requires marks { HasMarks scene.old }
    requires bit { BitSits scene.old bit.now }
    ensures { (all : List WireBit) → (start : Scene) → IsScene start → IsSoFar start scene.old all bits.old.items → OnOk result (IsSoFar start scene.new (bit.now ∷ all) bits.new.items) }
{
    let place = mark_place(scene, bit);
    if !scene.marks.as_slice()[place] {
        bits.push(*bit)?;
        scene.marks.set(place, true);
    }
    Ok(())
}

/// Marks the bits that a block writes.
pub fn mark_all(alloc: Global, scene: Scene, bits: &[WireBit]) -> Result<Marked, AllocError>
    requires sound { IsScene scene }
    requires marks { HasMarks scene }
    requires bits { All (BitSits scene) bits.now }
    requires clear { (n k : ℕ) → is_written scene n k ≡ false }
    ensures { IfOk result (λ all. IsMarked scene bits.now all) }
{
    let mut scene = scene;
    let mut each = Vec::new(alloc);
    let mut at = bits.len();
    'bits: while at > 0 {
        at -= 1;
        mark_bit(&mut scene, &bits[at], &mut each)?;
    }
    each.reverse();
    Ok(Marked {
        scene,
        bits: Items::from_vec(each),
    })
}
