// The design: its text, its tree, its flat form.
ghost use Rattle.std.specs.Prelude.{◌≡◌, ◌≤◌, ℕ, List, IfOk, OnOk, IfErr};
ghost use Rattle.std.specs.Option.{option_copied};
ghost use Rattle.flat_net.specs.Flats.{IsFlat};
ghost use Rattle.sv_elab.specs.Elaborated.{IsElaborated};
ghost use Rattle.sv_meaning.specs.Designs.{Design};
ghost use Rattle.sv_outside.specs.Outside.{Rose};
ghost use Rattle.sv_preproc.specs.Directives.{IsWholeText};
ghost use Rattle.sv_preproc.specs.Laws.{Possible};
ghost use Rattle.svtv_files.specs.Files.{IsDesignFile};
ghost use Rattle.svtv_files.specs.Refusals.{RefusesDesign, UnreadDesign};
ghost use Rattle.svtv_files.specs.Stopping.{Counts, IfUnread, IsInFile, IsInOneOf, Stops, StopsText};

use flat_net::Flat;
use std::alloc::Global;
use sv_elab::{elaborate, key_of};
use sv_outside::{Files, Name, TextErr, Tokens};
use sv_parser::parse;
use sv_preproc::{PreErr, preprocess};
use svtv_files::Stop;

// The tokens of the design's text.
#[tactic(auto, using(crate::proofs::Counting::memory_counts))]
fn tokens_of<F: Files>(alloc: Global, files: &mut F, name: &Name) -> Result<Tokens, Stop>
    ensures text { IfOk result (λ tokens. IsWholeText (Possible (F.contents files.old)) name.now tokens) }
    ensures stop { IfErr result (StopsText (F.contents files.old) name.now) }
    ensures rose { IfErr result (IfUnread (Rose (F.faults files.old) (F.faults files.new))) }
    ensures kept { OnOk result (F.faults files.new ≡ F.faults files.old) }
    ensures counts { IfErr result (λ stop. Counts stop (F.faults files.old) (F.faults files.new)) }
    ensures unchanged { (other : List ℕ) → F.contents files.new other ≡ F.contents files.old other }
    ensures counts_up { F.faults files.old ≤ F.faults files.new }
{
    match preprocess(alloc, files, name) {
        Ok(tokens) => Ok(tokens),
        Err(PreErr::No(refusal, file)) => Err(Stop::Refused(file, refusal)),
        Err(PreErr::Read(place, file)) => Err(Stop::Unread(file, place)),
        Err(PreErr::Memory) => Err(Stop::Memory),
    }
}

// The refusal of a text, with the name of the file of its place.
fn in_file(tokens: &Tokens, error: TextErr) -> Stop
    requires { IsInOneOf tokens.now error }
    ensures { IsInFile tokens.now error result }
{
    let TextErr::No(refusal) = error else {
        return Stop::Memory;
    };
    match tokens.files[refusal.place.file].copy() {
        Ok(file) => Stop::Refused(file, refusal),
        Err(_) => Stop::Memory,
    }
}

/// The flat form of the design that the file of that name is the text of, with the files that it includes.
#[tactic(auto, using(crate::proofs::Counting::in_file_counts))]
pub fn load_design<F: Files>(
    alloc: Global,
    files: &mut F,
    name: &Name,
    top: Option<&Name>,
) -> Result<Flat, Stop>
    ensures design { IfOk result (λ flat. (design : Design) × IsDesignFile (F.contents files.old) name.now (option_copied top.entry) design × IsElaborated design flat) }
    ensures sound { IfOk result IsFlat }
    ensures stop { IfErr result (Stops (RefusesDesign (F.contents files.old) name.now (option_copied top.entry)) (UnreadDesign (F.contents files.old) name.now)) }
    ensures rose { IfErr result (IfUnread (Rose (F.faults files.old) (F.faults files.new))) }
    ensures kept { OnOk result (F.faults files.new ≡ F.faults files.old) }
    ensures counts { IfErr result (λ stop. Counts stop (F.faults files.old) (F.faults files.new)) }
    ensures unchanged { (other : List ℕ) → F.contents files.new other ≡ F.contents files.old other }
    ensures counts_up { F.faults files.old ≤ F.faults files.new }
{
    let tokens = match tokens_of(alloc, files, name) {
        Ok(tokens) => tokens,
        Err(stop) => return Err(stop),
    };
    let tree = match parse(alloc, &tokens) {
        Ok(tree) => tree,
        Err(error) => return Err(in_file(&tokens, error)),
    };
    match elaborate(alloc, key_of(&tokens), &tree, top) {
        Ok(flat) => Ok(flat),
        Err(error) => Err(in_file(&tokens, error)),
    }
}
