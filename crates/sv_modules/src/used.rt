// The names of the modules that items instantiate.
ghost use Rattle.std.specs.Prelude.{◌≡◌, [], OnOk, IfOk};
ghost use Rattle.sv_hierarchy.specs.Scopes.{instantiated, instantiated_by, instantiated_under};
ghost use Rattle.sv_modules.specs.Libraries.{trees_of, used_in};
ghost use Rattle.sv_modules.specs.Naming.{Adds, Holds};

use crate::name_set::NameSet;
use std::alloc::{AllocError, Global};
use sv_tree::{Gen, Item, Module};

// Puts in the names that an item instantiates.
#[cycle(item)]
fn add_item(item: &Item, used: &mut NameSet) -> Result<(), AllocError>
    ensures { OnOk result (Adds used.old (instantiated item.now) used.new) }
{
    match item {
        Item::Inst(inst) => used.add(inst.of_module.text.bytes()),
        Item::Generate(items) => add_items(items.as_slice(), used),
        Item::For(_, _, _, _, _, _, body) => add_body(body.get(), used),
        Item::If(_, _, body, other) => match other {
            Some(other) => {
                add_body(body.get(), used)?;
                add_body(other.get(), used)
            }
            None => add_body(body.get(), used),
        },
        Item::Net(_, _, _) => Ok(()),
        Item::Variable(_, _) => Ok(()),
        Item::Typedef(_) => Ok(()),
        Item::Param(_) => Ok(()),
        Item::Genvar(_) => Ok(()),
        Item::Assign(_) => Ok(()),
        Item::Always(_) => Ok(()),
    }
}

// Those of a list of items.
#[cycle(item)]
fn add_items(items: &[Item], used: &mut NameSet) -> Result<(), AllocError>
    ensures { OnOk result (Adds used.old (instantiated_by items.now) used.new) }
{
    'items: for item in items {
        add_item(item, used)?;
    }
    Ok(())
}

// Those of the body of a generate construct.
#[cycle(item)]
fn add_body(body: &Gen, used: &mut NameSet) -> Result<(), AllocError>
    ensures { OnOk result (Adds used.old (instantiated_under body.now) used.new) }
{
    match body {
        Gen::Block(_, _, items, _) => add_items(items.as_slice(), used),
        Gen::Single(_, item) => add_item(item.get(), used),
    }
}

/// The names that modules instantiate.
pub(crate) fn used_by(alloc: Global, key: u128, modules: &[&Module]) -> Result<NameSet, AllocError>
    ensures { IfOk result (λ used. Holds used (used_in (trees_of modules.now))) }
{
    let mut used = NameSet::new(alloc, key);
    'modules: for module in modules {
        add_items(module.items.as_slice(), &mut used)?;
    }
    Ok(used)
}
