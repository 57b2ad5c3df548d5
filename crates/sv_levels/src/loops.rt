// The variables of generate loops (IEEE 1800-2017, 27.4).
ghost use Rattle.std.specs.Prelude.{◌≡◌, false, [], ◌∷◌, IfOk};
ghost use Rattle.sv_names.specs.Kinds.{entries_are};
ghost use Rattle.sv_names.specs.Names.{names_are};
ghost use Rattle.sv_tree.specs.declared.word.Word.{Word as Spelt};
ghost use Rattle.sv_meaning.specs.Deeds.{index_entry};
ghost use Rattle.sv_meaning.specs.Faults.{is_clear};
ghost use Rattle.sv_meaning.specs.Layouts.{find};
ghost use Rattle.sv_hierarchy.specs.Scopes.{genvar_faults};

use fourvec::Four;
use items::Items;
use std::alloc::{AllocError, Global};
use sv_names::{Known, Names, Scope, What};
use sv_outside::Name;
use sv_tree::Word;

// Whether a name stands for a variable of generate loops.
fn is_genvar(names: &Names<'_>, name: &[u8]) -> bool
    ensures { (w : Spelt) → w.text ≡ name.now → result ≡ is_clear (genvar_faults false w (find name.now (names_are names.now))) }
{
    match names.find(name) {
        Some(What::Genvar) => true,
        Some(What::Number(_)) => false,
        Some(What::Kind(_)) => false,
        Some(What::Wire { .. }) => false,
        Some(What::Chosen { .. }) => false,
        Some(What::Sampled { .. }) => false,
        None => false,
    }
}

/// Whether a loop may have this variable: it is declared in the header, or is one of generate loops.
pub fn is_loop_variable(names: &Names<'_>, header: bool, variable: &Word) -> bool
    ensures { result ≡ is_clear (genvar_faults header variable.now (find variable.now.text (names_are names.now))) }
{
    if header {
        true
    } else {
        is_genvar(names, variable.text.bytes())
    }
}

/// The name of a loop's blocks, and the values of its variable in all turns.
pub struct Turns {
    pub name: Name,
    pub values: Items<Four>,
}

impl Drop for Turns {
    fn drop(self) {
        let Turns { name: _, values: _ } = self;
    }
}

/// The variable of a loop in a turn, as the first name of its block. The key is a digest of the text.
pub fn index_scope(
    alloc: Global,
    key: u128,
    variable: &Word,
    bits: Four,
) -> Result<Scope, AllocError>
    ensures { IfOk result (λ scope. entries_are scope ≡ index_entry variable.now.text bits ∷ []) }
{
    let mut scope = Scope::new(alloc, key);
    let name = variable.text.copy()?;
    scope.push(
        name,
        What::Number(Known {
            value: bits,
            signed: true,
        }),
    )?;
    Ok(scope)
}
