// All choices, one after another.
ghost use Rattle.std.specs.Prelude.{◌≡◌, ◌<◌, ◌≤◌, ◌+◌, All, IfOk, IfNone, IfSome, false, length};
ghost use Rattle.aig.specs.Graph.{IsIn, count_inputs, value};
ghost use Rattle.choice_inputs.specs.Questions as spec;
ghost use Rattle.choice_inputs.specs.Questions.{IsTold, NoneAnswers};
ghost use Rattle.svtv_choices.specs.Choices as c;
ghost use Rattle.svtv_choices.specs.Choices.{AreNumbered, bits_of};
ghost use Rattle.svtv_table.specs.Binding.{HasWidth};
ghost use Rattle.svtv_table.specs.Stimuli.{IsChoice};

use crate::choices::inputs_of;
use aig::{Aig, Lit};
use fourvec::Four;
use items::Items;
use std::alloc::{AllocError, Global};
use svtv_choices::{all_numbered, choice_of};
use svtv_table::VarDecl;

// Whether the literal is true under a choice.
fn is_told(alloc: Global, aig: &Aig, root: Lit, choice: &[Four]) -> Result<bool, AllocError>
    requires inputs { length (spec.inputs_of choice.now) ≡ count_inputs aig.now }
    requires within { IsIn aig.now root }
    ensures { IfOk result (λ told. told ≡ value (spec.inputs_of choice.now) aig.now root) }
{
    let inputs = inputs_of(alloc, choice)?;
    aig.eval(alloc, &inputs, root)
}

/// A choice under which a literal is true, of variables with few bits: they are tried by number.
pub fn first_told(
    alloc: Global,
    aig: &Aig,
    root: Lit,
    vars: &[VarDecl],
) -> Result<Option<Items<Four>>, AllocError>
    requires widths { All (λ var. HasWidth var.width) vars.now }
    requires few { bits_of vars.now ≤ 12 }
    requires inputs { count_inputs aig.now ≡ bits_of vars.now }
    requires within { IsIn aig.now root }
    ensures is { IfOk result (λ found. IfSome found (λ choice. IsChoice vars.now choice)) }
    ensures told { IfOk result (λ found. IfSome found (λ choice. IsTold aig.now root choice)) }
    ensures none { IfOk result (λ found. IfNone found (NoneAnswers vars.now (IsTold aig.now root))) }
{
    all_numbered();
    let count = 1u64 << aig.input_count();
    'numbers: for number in 0..count {
        let choice = choice_of(alloc, vars, number)?;
        if is_told(alloc, aig, root, choice.as_slice())? {
            return Ok(Some(choice));
        }
    }
    Ok(None)
}
