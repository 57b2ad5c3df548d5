// The top of a design.
ghost use Rattle.std.specs.Prelude.{◌≡◌, List, None, IfOk};
ghost use Rattle.std.specs.Option.{option_copied};
ghost use Rattle.sv_outside.specs.declared.refusal.TextErr.TheVariants.{No};
ghost use Rattle.sv_meaning.specs.Faults.{top_unclear, unknown_module};
ghost use Rattle.sv_hierarchy.specs.Scopes.{Library, top_module, design_start};
ghost use Rattle.sv_loops.specs.Answers.{Answers, Gives};
ghost use Rattle.sv_meaning.specs.Layouts.{Name as Bytes};
ghost use Rattle.sv_modules.specs.Naming.{Holds};
ghost use Rattle.sv_hierarchy.specs.Libraries.{IsLibraryOf};
ghost use Rattle.sv_modules.specs.Libraries.{trees_of, unused_from, only_one};
ghost use Rattle.sv_modules.specs.Listed.{modules_of};

use crate::name_set::NameSet;
use crate::numbered::Modules;
use crate::used::used_by;
use std::alloc::{AllocError, Global};
use sv_outside::{FILE_START, Name, Refusal, TextErr, refusals};
use sv_tree::Module;

// A refusal at the start of the design's file.
fn refused(number: u8, count: u64) -> TextErr
    ensures { result ≡ No (record { number = number; place = design_start; count = count }) }
{
    TextErr::No(Refusal {
        number,
        place: FILE_START,
        count,
    })
}

// The numbers of the modules whose names are not among these.
fn unused_of(alloc: Global, modules: &[&Module], used: &NameSet) -> Result<Vec<usize>, AllocError>
    ensures { (names : List Bytes) → Holds used.now names → IfOk result (λ numbers. numbers.items ≡ unused_from 0 names (trees_of modules.now)) }
{
    let mut numbers = Vec::new(alloc);
    'modules: for (number, module) in modules.iter().enumerate() {
        if !used.has(module.name.text.bytes()) {
            numbers.push(number)?;
        }
    }
    Ok(numbers)
}

// The only one of some numbers, or E10 with their count.
fn only_one(numbers: &[usize]) -> Result<usize, TextErr>
    ensures { Gives (only_one numbers.now) result }
{
    match numbers {
        [number] => Ok(*number),
        _ => Err(refused(refusals::TOP_UNCLEAR, numbers.len() as u64)),
    }
}

// The number of the one module that no module instantiates.
fn unused_one(alloc: Global, key: u128, modules: &[&Module]) -> Result<usize, TextErr>
    ensures { (all : Library) → IsLibraryOf (trees_of modules.now) all → Answers (λ m n. m.number ≡ n) (top_module all None) result }
{
    let used = used_by(alloc, key, modules)?;
    let numbers = unused_of(alloc, modules, &used)?;
    only_one(&numbers)
}

/// The number of the top: the module of a given name or, where none is given, the one module that no module instantiates.
/// Refused as E11 where no module has the name, and as E10 with how many modules are not instantiated where these are not
/// one; both at the start of the design's file. The time is linear in the text,
/// of which the key is a digest.
pub fn top_of(
    alloc: Global,
    key: u128,
    modules: &Modules<'_>,
    top: Option<&Name>,
) -> Result<usize, TextErr>
    ensures { (all : Library) → IsLibraryOf (modules_of modules.now) all → Answers (λ m n. m.number ≡ n) (top_module all (option_copied top.entry)) result }
{
    match top {
        Some(name) => match modules.find(name.bytes()) {
            Some(number) => Ok(number),
            None => Err(refused(refusals::UNKNOWN_MODULE, 0)),
        },
        None => unused_one(alloc, key, modules.list()),
    }
}
