// Copies of flat designs, part by part.
ghost use Rattle.std.specs.Prelude.{◌≡◌, IfOk};

use driver_resolve::Driver;
use flat_net::{Flat, Join};
use items::Items;
use std::alloc::{AllocError, Global};
use sv_outside::Signal;

fn copy_wire(wire: &Signal) -> Result<Signal, AllocError>
    ensures { IfOk result (λ copy. copy ≡ wire.now) }
{
    let path = wire.path.copy()?;
    Ok(Signal {
        path,
        width: wire.width,
        input: wire.input,
    })
}

fn copy_driver(driver: &Driver) -> Result<Driver, AllocError>
    ensures { IfOk result (λ copy. copy ≡ driver.now) }
{
    let target = driver.target.copy()?;
    Ok(Driver {
        target,
        value: driver.value,
    })
}

fn copy_join(join: &Join) -> Result<Join, AllocError>
    ensures { IfOk result (λ copy. copy ≡ join.now) }
{
    let child = join.child.copy()?;
    let parent = join.parent.copy()?;
    Ok(Join { child, parent })
}

fn copy_wires(alloc: Global, wires: &[Signal]) -> Result<Items<Signal>, AllocError>
    ensures { IfOk result (λ copies. copies ≡ wires.now) }
{
    let mut copies = Items::new(alloc);
    for wire in wires {
        copies.push(copy_wire(wire)?)?;
    }
    Ok(copies)
}

fn copy_drivers(alloc: Global, drivers: &[Driver]) -> Result<Items<Driver>, AllocError>
    ensures { IfOk result (λ copies. copies ≡ drivers.now) }
{
    let mut copies = Items::new(alloc);
    for driver in drivers {
        copies.push(copy_driver(driver)?)?;
    }
    Ok(copies)
}

fn copy_joins(alloc: Global, joins: &[Join]) -> Result<Items<Join>, AllocError>
    ensures { IfOk result (λ copies. copies ≡ joins.now) }
{
    let mut copies = Items::new(alloc);
    for join in joins {
        copies.push(copy_join(join)?)?;
    }
    Ok(copies)
}

/// An equal flat design. Takes time and memory in proportion to the design.
pub fn copy_flat(alloc: Global, flat: &Flat) -> Result<Flat, AllocError>
    ensures { IfOk result (λ copy. copy ≡ flat.now) }
{
    let wires = copy_wires(alloc, flat.wires.as_slice())?;
    let drivers = copy_drivers(alloc, flat.drivers.as_slice())?;
    let joins = copy_joins(alloc, flat.joins.as_slice())?;
    let arena = flat.arena.copy(alloc)?;
    Ok(Flat {
        arena,
        wires,
        drivers,
        joins,
    })
}
