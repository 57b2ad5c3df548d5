//! A dump, phase by phase.

ghost use Rattle.std.specs.Prelude.{◌≡◌, ◌+◌, ◌++◌, ◌∷◌, [], List, map, All, IfOk, OnOk, OnErr};
ghost use Rattle.fourvec.specs.declared.Bit.{Bit as ABit};
ghost use Rattle.sv_outside.specs.declared.text.Signal.{Signal as ASignal};
ghost use Rattle.vcd_print.specs.Printed.{phase_text, dump_text, HasParts, IsPhase};
ghost use Rattle.vcd_print.specs.Dumps.{last_phase, IsDump, IsDumpOf};

use crate::print::{push_declarations, push_phase};
use fourvec::Four;
use std::alloc::{AllocError, Global};
use std::marker::Model;
use sv_outside::Signal;

/// The dump of wires in the phases that were put to it. Of the phases it holds the text alone.
pub struct Dump {
    text: Vec<u8>,
    phases: usize,
}

impl Drop for Dump {
    fn drop(self) {
        let Dump { text: _, phases: _ } = self;
    }
}

impl Model for Dump {
    ghost use Rattle.std.specs.Prelude.{◌≤◌, length};
    ghost use Rattle.vcd_print.specs.Dumps.{Printed};

    ghost Value = { Printed };

    ghost view = { λ d. record { text = d.text.items; phases = d.phases } };

    ghost invariant = { λ d. d.phases ≤ length d.text.items };
}

impl Dump {
    /// The declarations of the wires, and no phase.
    pub fn new(alloc: Global, wires: &[Signal]) -> Result<Dump, AllocError>
        ensures { IfOk result (λ dump. IsDump wires.now [] dump) }
    {
        let mut text = Vec::new(alloc);
        push_declarations(&mut text, wires)?;
        Ok(Dump { text, phases: 0 })
    }

    /// Puts a phase behind the others, with the values that differ from those of the phase before, or all where these are none. Where
    /// memory is out, nothing is left of the dump.
    pub fn phase(&mut self, before: &[Four], values: &[Four]) -> Result<(), AllocError>
        ensures text { OnOk result (self.new ≡ record { text = self.old.text ++ phase_text self.old.phases before.now values.now; phases = self.old.phases + 1 }) }
        ensures dump { OnOk result ((wires : List ASignal) (phases : List (List (List ABit))) → before.now ≡ last_phase phases → IsDump wires phases self.old
            → IsDump wires (phases ++ values.now ∷ []) self.new) }
        ensures err { OnErr result (self.new ≡ record { text = []; phases = 0 }) }
    {
        if let Err(e) = push_phase(&mut self.text, self.phases, before, values) {
            self.text.clear();
            self.phases = 0;
            return Err(e);
        }
        self.phases += 1;
        Ok(())
    }

    /// The text of the dump.
    pub fn into_text(self) -> Vec<u8>
        ensures text { result.items ≡ self.text }
        ensures stands { (wires : List ASignal) (phases : List (List (List ABit))) → IsDump wires phases self → All HasParts wires → All (IsPhase wires) phases → IsDumpOf wires phases result.items }
    {
        let Dump { text, phases: _ } = self;
        text
    }
}

/// The dump of wires and their values in phases, each phase with one value for each wire, at its width.
pub fn print_vcd(
    alloc: Global,
    wires: &[Signal],
    phases: &[Vec<Four>],
) -> Result<Vec<u8>, AllocError>
    requires parts { All HasParts wires.now }
    requires phases { All (λ p. IsPhase wires.now p.items) phases.now }
    ensures text { IfOk result (λ text. text.items ≡ dump_text wires.now (map (λ p. p.items) phases.now)) }
    ensures stands { IfOk result (λ text. IsDumpOf wires.now (map (λ p. p.items) phases.now) text.items) }
{
    let mut dump = Dump::new(alloc, wires)?;
    let mut before: &[Four] = &[];
    'phases: for values in phases {
        dump.phase(before, values)?;
        before = values;
    }
    Ok(dump.into_text())
}
