// The bits of a choice, and the choice of bits: by variable, and from the least significant bit of each on, as gates have their inputs.
// A vector is made of its bits one by one, from the lowest up, since each bit is then a constant and no number is shifted. This is done for
// the choice of a solution alone, once a question.
ghost use Rattle.std.specs.Prelude.{◌≡◌, ◌<◌, ◌≤◌, ◌+◌, ◌++◌, ◌∷◌, [], All, IfOk, false, length, map, take, drop, slice_index_or};
ghost use Rattle.aig.specs.declared.gate.Lit.{Lit};
ghost use Rattle.aig.specs.Graph.{IsIn, count_inputs};
ghost use Rattle.choice_inputs.specs.Questions as spec;
ghost use Rattle.choice_inputs.specs.Questions.{IsTold};
ghost use Rattle.cnf.specs.Clauses.{Solves};
ghost use Rattle.cnf.specs.Gates.{clauses_for};
ghost use Rattle.fourvec.specs.Bits.{is_one, truth_bit};
ghost use Rattle.svtv_choices.specs.Choices.{bits_of};
ghost use Rattle.svtv_table.specs.Binding.{HasWidth};
ghost use Rattle.svtv_table.specs.Stimuli.{IsChoice};

use crate::inputs::inputs_to;
use aig::Aig;
use fourvec::{Bit, Four};
use items::Items;
use std::alloc::{AllocError, Global};
use svtv_table::VarDecl;

// Whether a bit of a vector is 1.
fn is_one_at(value: &Four, at: u8) -> bool
    requires { at < length value.now }
    ensures { result ≡ slice_index_or (map is_one value.now) at false }
{
    value.bit(at) == Bit::One
}

// Puts the bits of a vector at the end.
fn put_bits(value: &Four, inputs: &mut Vec<bool>) -> Result<(), AllocError>
    ensures { IfOk result (λ _. inputs.new.items ≡ inputs.old.items ++ map is_one value.now) }
{
    for at in 0..value.width() {
        inputs.push(is_one_at(value, at))?;
    }
    Ok(())
}

/// The bits of a choice, by variable and then from the least significant on.
pub fn inputs_of(alloc: Global, choice: &[Four]) -> Result<Vec<bool>, AllocError>
    ensures { IfOk result (λ inputs. inputs.items ≡ spec.inputs_of choice.now) }
{
    let mut inputs = Vec::new(alloc);
    'values: for value in choice {
        put_bits(value, &mut inputs)?;
    }
    Ok(inputs)
}

#[tactic(auto, unfolding(fourvec::specs::Bits::planes))]
fn one_bit(bit: bool) -> Four
    ensures { result ≡ truth_bit bit ∷ [] }
{
    if bit {
        Four::new(1, 1, 1)
    } else {
        Four::new(1, 0, 0)
    }
}

// The vector of bits.
fn vector_of(bits: &[bool]) -> Four
    requires some { 0 < length bits.now }
    requires most { length bits.now ≤ 128 }
    ensures { result ≡ map truth_bit bits.now }
{
    let mut value = one_bit(bits[0]);
    for at in 1..bits.len() {
        value = one_bit(bits[at]).concat(&value);
    }
    value
}

// So many of the bits, from a place on.
fn part(inputs: &[bool], at: usize, width: u8) -> &[bool]
    requires { at + width ≤ length inputs.now }
    ensures { result.now ≡ take width (drop at inputs.now) }
{
    &inputs[at..at + usize::from(width)]
}

// The choice whose bits are these.
fn choice_by(alloc: Global, vars: &[VarDecl], inputs: &[bool]) -> Result<Items<Four>, AllocError>
    requires widths { All (λ var. HasWidth var.width) vars.now }
    requires long { length inputs.now ≡ bits_of vars.now }
    ensures is { IfOk result (λ choice. IsChoice vars.now choice) }
    ensures inputs { IfOk result (λ choice. spec.inputs_of choice ≡ inputs.now) }
{
    let mut choice = Items::new(alloc);
    let mut at = 0;
    'vars: for var in vars {
        choice.push(vector_of(part(inputs, at, var.width)))?;
        at += usize::from(var.width);
    }
    Ok(choice)
}

/// The choice of values of all nodes, by the inputs among them. Under it a literal is true whose clauses these values solve.
pub fn choice_of_values(
    alloc: Global,
    aig: &Aig,
    vars: &[VarDecl],
    values: &[bool],
) -> Result<Items<Four>, AllocError>
    requires widths { All (λ var. HasWidth var.width) vars.now }
    requires inputs { count_inputs aig.now ≡ bits_of vars.now }
    requires long { length values.now ≡ length aig.now }
    ensures is { IfOk result (λ choice. IsChoice vars.now choice) }
    ensures told { (root : Lit) → IsIn aig.now root → Solves (λ k. slice_index_or values.now k false) (clauses_for aig.now root) → IfOk result (λ choice. IsTold aig.now root choice) }
{
    // For the proof: recalls what the type promises of it.
    let _ = aig.len();
    let inputs = inputs_to(alloc, aig, values)?;
    choice_by(alloc, vars, &inputs)
}
