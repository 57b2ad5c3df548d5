// The parameters that an instance may give.
ghost use Rattle.std.specs.Prelude.{◌≡◌, ◌++◌, [], OnOk, IfOk};
ghost use Rattle.sv_hierarchy.specs.Scopes.{open_params, params_from, params_of_items, body_params, item_names, list_params};
ghost use Rattle.sv_tree.specs.declared.design.ParamWord.TheVariants.{Parameter};
ghost use Rattle.sv_meaning.specs.Params.{is_parameter};
ghost use Rattle.sv_modules.specs.Naming.{texts_of};

use std::alloc::{AllocError, Global};
use sv_tree::{Item, Module, ParPort, ParamItem, ParamWord, Word};

// Those of an item that stands in a module which has no list of parameters.
#[cycle(item)]
fn add_of_item<'a>(item: &'a Item, words: &mut Vec<&'a Word>) -> Result<(), AllocError>
    ensures { OnOk result (texts_of words.new.items ≡ texts_of words.old.items ++ body_params item.now) }
{
    match item {
        Item::Param(param) => match param.word {
            ParamWord::Parameter => add_names(param.list.as_slice(), words),
            ParamWord::Localparam => Ok(()),
        },
        Item::Generate(items) => add_of_items(items.as_slice(), words),
        Item::Net(_, _, _) => Ok(()),
        Item::Variable(_, _) => Ok(()),
        Item::Typedef(_) => Ok(()),
        Item::Genvar(_) => Ok(()),
        Item::Assign(_) => Ok(()),
        Item::Always(_) => Ok(()),
        Item::Inst(_) => Ok(()),
        Item::For(_, _, _, _, _, _, _) => Ok(()),
        Item::If(_, _, _, _) => Ok(()),
    }
}

// Those of a list of items.
#[cycle(item)]
fn add_of_items<'a>(items: &'a [Item], words: &mut Vec<&'a Word>) -> Result<(), AllocError>
    ensures { OnOk result (texts_of words.new.items ≡ texts_of words.old.items ++ params_of_items items.now) }
{
    'items: for item in items {
        add_of_item(item, words)?;
    }
    Ok(())
}

// The names of one declaration.
fn add_names<'a>(list: &'a [ParamItem], words: &mut Vec<&'a Word>) -> Result<(), AllocError>
    ensures { OnOk result (texts_of words.new.items ≡ texts_of words.old.items ++ item_names list.now) }
{
    'list: for item in list {
        words.push(&item.name)?;
    }
    Ok(())
}

fn is_parameter(word: ParamWord) -> bool
    ensures { result ≡ is_parameter word }
{
    match word {
        ParamWord::Parameter => true,
        ParamWord::Localparam => false,
    }
}

// Those of a module's list, in which a word stands for what follows it too.
fn add_of_list<'a>(list: &'a [ParPort], words: &mut Vec<&'a Word>) -> Result<(), AllocError>
    ensures { OnOk result (texts_of words.new.items ≡ texts_of words.old.items ++ list_params Parameter list.now) }
{
    let mut word = ParamWord::Parameter;
    'list: for port in list {
        word = port.word.unwrap_or(word);
        if is_parameter(word) {
            words.push(&port.name)?;
        }
    }
    Ok(())
}

/// The names of the parameters that an instance may give, in order: those of the module's list or, where it has none, of
/// its own items (6.20.1, 23.10). No `localparam` is among them.
pub fn open_params(alloc: Global, tree: &Module) -> Result<Vec<&Word>, AllocError>
    ensures { IfOk result (λ words. texts_of words.items ≡ open_params tree.now) }
{
    let mut words = Vec::new(alloc);
    if tree.params.is_empty() {
        add_of_items(tree.items.as_slice(), &mut words)?;
    } else {
        add_of_list(tree.params.as_slice(), &mut words)?;
    }
    Ok(words)
}
