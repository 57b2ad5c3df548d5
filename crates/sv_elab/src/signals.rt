// The wires of a flat design.
ghost use Rattle.std.specs.Prelude.{◌≡◌, IfOk};
ghost use Rattle.driver_resolve.specs.Drivers.{widths_of};

use items::Items;
use std::alloc::{AllocError, Global};
use sv_outside::Signal;

/// The wires once more.
pub(crate) fn copied(alloc: Global, wires: &[Signal]) -> Result<Items<Signal>, AllocError>
    ensures { IfOk result (λ all. all ≡ wires.now) }
{
    let mut all = Items::new(alloc);
    'wires: for wire in wires {
        let path = wire.path.copy()?;
        all.push(Signal {
            path,
            width: wire.width,
            input: wire.input,
        })?;
    }
    Ok(all)
}

/// The widths of wires.
pub(crate) fn widths(alloc: Global, wires: &[Signal]) -> Result<Vec<u8>, AllocError>
    ensures { IfOk result (λ all. all.items ≡ widths_of wires.now) }
{
    let mut all = Vec::new(alloc);
    'wires: for wire in wires {
        all.push(wire.width)?;
    }
    Ok(all)
}
