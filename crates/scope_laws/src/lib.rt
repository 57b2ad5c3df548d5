//! Laws of the scopes of a design.
#![tactic(auto)]

ghost use Rattle.std.specs.Prelude.{◌≡◌, ◌≢◌, ◌<◌, ℕ, AllPairs, Contains, Option, Ok};
ghost use Rattle.sv_tree.specs.declared.design.Source.{Source};
ghost use Rattle.sv_tree.specs.declared.design.Way.{Way};
ghost use Rattle.sv_tree.specs.declared.exprs.Expr.{Expr};
ghost use Rattle.sv_meaning.specs.Layouts.{Name, Layout, width, of_wires, NamedSignal, Declared};
ghost use Rattle.sv_hierarchy.specs.Scopes.{Front, State, connecting, live_at, scopes};
ghost use Rattle.scope_laws.specs.Wires.{HaveParts, HavePaths, IsWire, connected_wires};

/// Each signal that a place in a design sees is a wire of the design, of its width, and so is each connected port, which is numbered
/// above all that the place of its instance sees (IEEE 1800-2017 23.3.3; the order of wires is this tool's own).
#[tactic(auto, using(crate::proofs::Seen::seen_are_wires, crate::proofs::Seen::ports_are_wires, crate::proofs::Closing::ports_stand_above))]
pub fn names_are_wires()
    ensures seen { (source : Source) (top : Option Name) (st : State) → scopes source top ≡ Ok st
        → (at : Front) (s : NamedSignal) → Declared (live_at st.levels at) s → IsWire st.wires s }
    ensures ports { (source : Source) (top : Option Name) (st : State) → scopes source top ≡ Ok st
        → (at : Front) (way : Way) (n : ℕ) (x : Layout) (actual : Expr) → Contains st.works (record { at = at; task = connecting way n x actual })
        → IsWire st.wires (record { owner = of_wires; number = n; width = width x }) }
    ensures above { (source : Source) (top : Option Name) (st : State) → scopes source top ≡ Ok st
        → (at : Front) (way : Way) (n : ℕ) (x : Layout) (actual : Expr) → Contains st.works (record { at = at; task = connecting way n x actual })
        → (s : NamedSignal) → Declared (live_at st.levels at) s → s.number < n }
{}

/// No two connected ports have one wire (IEEE 1800-2017 23.3.2: each port is connected once).
pub fn connected_ports_have_own_wires()
    ensures { (source : Source) (top : Option Name) (st : State) → scopes source top ≡ Ok st → AllPairs ◌≢◌ (connected_wires st.works) }
{}

/// Each wire of a design has a path of printed bytes: only names of such bytes are declared (IEEE 1800-2017 5.6).
pub fn wires_have_paths()
    ensures { (source : Source) (top : Option Name) (st : State) → scopes source top ≡ Ok st → HavePaths st.wires }
{}

/// Each part of a wire's path, between its dots, is a name that begins with neither `$` nor `[`: a name begins with a letter or an
/// underscore (IEEE 1800-2017 5.6), and the turns of a loop stand behind one (27.4).
pub fn paths_have_parts()
    ensures { (source : Source) (top : Option Name) (st : State) → scopes source top ≡ Ok st → HaveParts st.wires }
{}
