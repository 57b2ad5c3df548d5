//! Least runs once more, by unrolling: a table over the machine of a flat design becomes a node for each sample, and the node's value
//! under a choice has to be what the run has.

ghost use Rattle.flat_net.specs.Flats.{IsFlat};
ghost use Rattle.svtv_table.specs.Binding.{IsBound};

use case_exprs::put_vectors;
use case_rows::Fault;
use flat_net::Flat;
use fourvec::Four;
use net_equations::ComposeErr;
use std::alloc::{AllocError, Global};
use svex_arena::Env;
use svtv_machine::sample_nodes;
use svtv_table::Bound;
use svtv_unroll::Svtv;

fn fault_of(error: ComposeErr) -> Fault {
    match error {
        ComposeErr::LoopTooWide(_) => Fault::Form,
        ComposeErr::Memory => Fault::Memory,
    }
}

/// The table over the machine of the design, unrolled.
pub fn unrolled(alloc: Global, flat: Flat, bound: &Bound) -> Result<Svtv, Fault>
    requires flat { IsFlat flat }
    requires bound { IsBound flat.wires bound.now }
{
    match sample_nodes(alloc, flat, bound) {
        Ok(svtv) => Ok(svtv),
        Err(error) => Err(fault_of(error)),
    }
}

fn samples_of(alloc: Global, svtv: &Svtv, env: &Env) -> Result<Vec<Four>, Fault> {
    let mut values = Vec::new(alloc);
    for node in svtv.samples.as_slice() {
        if node.index() >= svtv.fsm.flat.arena.len() {
            return Err(Fault::Form);
        }
        values.push(svtv.fsm.flat.arena.eval(alloc, *node, env)?)?;
    }
    Ok(values)
}

fn env_of(alloc: Global, choice: &[Four]) -> Result<Env, AllocError> {
    let mut chosen = Vec::new(alloc);
    chosen.extend_from_slice(choice)?;
    Ok(Env {
        present: Vec::new(alloc),
        previous: Vec::new(alloc),
        stim: Vec::new(alloc),
        chosen,
        sampled: Vec::new(alloc),
    })
}

/// Says the samples under a choice.
pub fn put_samples(
    alloc: Global,
    svtv: &Svtv,
    choice: &[Four],
    said: &mut Vec<u8>,
) -> Result<(), Fault> {
    let env = env_of(alloc, choice)?;
    let values = samples_of(alloc, svtv, &env)?;
    put_vectors(said, &values)
}
