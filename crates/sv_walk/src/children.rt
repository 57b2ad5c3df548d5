// Assignments and instances of a scope.
ghost use Rattle.std.specs.Prelude.{◌≡◌};
ghost use Rattle.std.specs.Option.{option_copied};
ghost use Rattle.sv_hierarchy.specs.Scopes.{add_assignment, add_child, flat_pins, walk_all};
ghost use Rattle.sv_walk.specs.Walks.{Walks};

use crate::walker::{Open, Walker};
use sv_levels::{Child, Task};
use sv_outside::TextErr;
use sv_tree::{AssignPair, Inst, Pins};

// The parameters of an instantiation, where it has some.
fn params_of(inst: &Inst) -> Option<&Pins>
    ensures { option_copied result ≡ flat_pins inst.now.params }
{
    match &inst.params {
        Some(pins) => pins.as_ref(),
        None => None,
    }
}

impl<'a> Walker<'a> {
    /// Continuous assignments (IEEE 1800-2017, 10.3).
    pub(crate) fn add_assignments(
        &mut self,
        current: &mut Open<'a>,
        list: &'a [AssignPair],
    ) -> Result<(), TextErr>
        ensures { Walks (walk_all add_assignment list.now) self.old current.old self.new current.new result }
    {
        'list: for pair in list {
            self.add_work(current, Task::Assigning(&pair.target, &pair.value))?;
        }
        Ok(())
    }

    /// The instances of an instantiation (23.3.2), which are to be opened; or E13 at a name.
    pub(crate) fn add_children(
        &mut self,
        current: &mut Open<'a>,
        inst: &'a Inst,
    ) -> Result<(), TextErr>
        ensures { Walks (walk_all (add_child inst.now) inst.now.list) self.old current.old self.new current.new result }
    {
        'list: for one in inst.list.as_slice() {
            current.declare_at(one.name.place, one.name.text.bytes())?;
            let at = self.here(current);
            let path = self
                .levels
                .path(self.alloc, current.level, one.name.text.bytes())?;
            self.children.push(Child {
                at,
                of_module: &inst.of_module,
                name: &one.name,
                path,
                params: params_of(inst),
                pins: one.pins.as_ref(),
            })?;
        }
        Ok(())
    }
}
