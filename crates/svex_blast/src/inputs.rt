//! Inputs for the bits of variables.

ghost use Rattle.std.specs.Prelude.{IfOk};
ghost use Rattle.svex_blast.specs.Chosen.{Extends, HasInputs, HasVariables, widths_of};

use aig::Aig;
use items::Items;
use pair_words::Pair;
use std::alloc::{AllocError, Global};
use svtv_table::VarDecl;

// An input for each bit, from the lowest on.
fn input_vector(alloc: Global, aig: &mut Aig, width: u8) -> Result<Vec<Pair>, AllocError>
    ensures made { IfOk result (λ r. HasInputs width aig.old aig.new r.items) }
    ensures extends { Extends aig.old aig.new }
{
    let mut word = Vec::new(alloc);
    for i in 0..width {
        // For the proof: recalls what the type promises of it.
        let _ = i;
        let bit = aig.input()?;
        word.push(Pair { up: bit, low: bit })?;
    }
    Ok(word)
}

/// The inputs of variables, by variable and then from the lowest bit on.
pub fn variables(
    alloc: Global,
    aig: &mut Aig,
    vars: &[VarDecl],
) -> Result<Vec<Items<Pair>>, AllocError>
    ensures made { IfOk result (λ r. HasVariables (widths_of vars.now) aig.old aig.new r.items) }
    ensures extends { Extends aig.old aig.new }
{
    let mut words: Vec<Items<Pair>> = Vec::new(alloc);
    'vars: for var in vars {
        let word = input_vector(alloc, aig, var.width)?;
        words.push(Items::from_vec(word))?;
    }
    Ok(words)
}
