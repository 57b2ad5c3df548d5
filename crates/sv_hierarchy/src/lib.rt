//! What the scopes of a source are: its instances and generate blocks, their names, its wires, and all that contributes
//! (IEEE 1800-2017, 6.20, 23 and 27). Definitions (`Scopes`), and a law over them; `DesignRows` in the proofs works small
//! designs out by hand.
#![tactic(auto)]

ghost use Rattle.std.specs.Prelude.{◌≡◌, [], List, Ok};
ghost use Rattle.sv_tree.specs.declared.design.SourcePart.{SourcePart};
ghost use Rattle.sv_hierarchy.specs.Scopes.{Library, State, library};
ghost use Rattle.sv_hierarchy.specs.Libraries.{modules_in, repeated, IsLibraryOf};

/// The library of a text has its modules, numbered by their places, and no two of them have one name.
#[tactic(auto, using(crate::proofs::Found::library_once))]
pub fn libraries_have_the_modules_in_order()
    ensures is { (parts : List SourcePart) (st last : State) (all : Library) → library parts [] st ≡ Ok (all, last) → IsLibraryOf (modules_in parts) all }
    ensures once { (parts : List SourcePart) (st last : State) (all : Library) → library parts [] st ≡ Ok (all, last) → repeated [] (modules_in parts) ≡ [] }
{}
