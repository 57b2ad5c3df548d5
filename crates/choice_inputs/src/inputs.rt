// The values of inputs among those of all nodes.
ghost use Rattle.std.specs.Prelude.{◌≡◌, ◌<◌, ◌≤◌, ◌++◌, IfOk, false, length, slice_index_or};
ghost use Rattle.choice_inputs.specs.Inputs as spec;
ghost use Rattle.choice_inputs.specs.Inputs.{input_at};

use aig::{Aig, Gate};
use std::alloc::{AllocError, Global};

// Puts the value of a node at the end where it is an input.
fn put_input(gate: Gate, value: bool, inputs: &mut Vec<bool>) -> Result<(), AllocError>
    ensures { IfOk result (λ _. inputs.new.items ≡ inputs.old.items ++ input_at gate value) }
{
    match gate {
        Gate::Input(_) => inputs.push(value)?,
        _ => {}
    }
    Ok(())
}

/// The values of the inputs, by their numbers, among those of all nodes.
pub fn inputs_to(alloc: Global, aig: &Aig, values: &[bool]) -> Result<Vec<bool>, AllocError>
    requires { length values.now ≡ length aig.now }
    ensures { IfOk result (λ inputs. inputs.items ≡ spec.inputs_to aig.now (λ k. slice_index_or values.now k false) (length aig.now)) }
{
    let mut inputs = Vec::new(alloc);
    for k in 0..aig.len() {
        put_input(aig.gate(k), values[k], &mut inputs)?;
    }
    Ok(inputs)
}
