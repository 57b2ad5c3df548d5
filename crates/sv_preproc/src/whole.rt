// Reads the main file.
ghost use Rattle.std.specs.Prelude.{◌≡◌, ◌≤◌, ℕ, List, IfOk, OnOk, IfErr, IsErr};
ghost use Rattle.sv_outside.specs.Outside.{Rose, counted};
ghost use Rattle.sv_outside.specs.Text.{TokenList};
ghost use Rattle.sv_outside.specs.declared.refusal.Refusal.{Refusal};
ghost use Rattle.sv_preproc.specs.Directives as spec;
ghost use Rattle.sv_preproc.specs.Laws.{Possible, Told};
ghost use Rattle.sv_preproc.specs.Reached as reached;
ghost use Rattle.sv_preproc.specs.Seen.{HasCause, IfReadFault, GivesOnly, is_read_fault};

use crate::{Known, Macros, PreErr, enter, read_all, start_of};
use std::alloc::Global;
use sv_outside::{Files, Name, Tokens};

// So many includes may nest.
const DEEPEST_INCLUDE: usize = 16;

// Reads the main file and the files that it includes.
fn read_main<F: Files>(alloc: Global, files: &mut F, main: &Name) -> Result<Tokens, PreErr>
    ensures text { IfOk result (λ tokens. spec.IsWholeText (Possible (F.contents files.old)) main.now tokens) }
    ensures caused { IfErr result (HasCause (reached.StopsIn (Possible (F.contents files.old)) main.now)) }
    ensures kept { OnOk result (F.faults files.new ≡ F.faults files.old) }
    ensures counts { IfErr result (λ e. F.faults files.new ≡ counted (is_read_fault e) (F.faults files.old)) }
    ensures unchanged { (other : List ℕ) → F.contents files.new other ≡ F.contents files.old other }
    ensures counts_up { F.faults files.old ≤ F.faults files.new }
{
    let mut known = Known {
        macros: Macros::new(alloc),
        files: Vec::new(alloc),
        counted: 0,
    };
    let file = enter(alloc, files, &mut known, main, start_of(0), main)?;
    let mut list = Vec::new(alloc);
    read_all(
        alloc,
        files,
        DEEPEST_INCLUDE,
        main,
        &file.lines,
        file.end,
        &mut known,
        &mut list,
    )?;
    Ok(Tokens {
        list,
        files: known.files,
        end: file.end,
    })
}

/// The tokens that the main file stands for, with its directives and the files that it includes, by the names as written.
/// A place's file is its number in `files`: each reading of a file has one, from 0. A macro's tokens have the place of the use.
///
/// A refusal names the file of its place. E1, E2 and E4 are those of `lex`, and besides: E2, a directive without its name, a `define`
/// of a directive's name, or a backslash at a line's end outside a directive's line; E3, includes nested over 16; E4, over 4,000,000
/// tokens counted, each token of a file once and each token of a macro's text once for every use; E5, a conditional that is not
/// balanced; E6, a name that is not defined, or a directive's name in a macro's text; E7, uses nested over 64; E25, a macro with arguments.
/// `Read` has the place of the directive that asked for the file; of the main file that is its own line 1 and column 1.
#[tactic(auto, using(crate::proofs::Main::only_this, crate::proofs::Main::refused_somehow, crate::proofs::Main::rose_where_read))]
pub fn preprocess<F: Files>(alloc: Global, files: &mut F, main: &Name) -> Result<Tokens, PreErr>
    // The answer is the list that the text stands for, and there is no other.
    ensures text { IfOk result (λ tokens. spec.IsWholeText (Possible (F.contents files.old)) main.now tokens) }
    ensures only { (tokens : TokenList) → spec.IsWholeText (Told (F.contents files.old)) main.now tokens → GivesOnly (λ answer. answer ≡ tokens) result }

    // A refusal or a read fault has its cause in the text, and where a cause of a refusal holds there are no tokens.
    ensures caused { IfErr result (HasCause (reached.StopsIn (Possible (F.contents files.old)) main.now)) }
    ensures faulty { (refusal : Refusal) (file : List ℕ) → reached.StopsIn (Told (F.contents files.old)) main.now (reached.no refusal) file → IsErr result }
    ensures fault { IfErr result (IfReadFault (Rose (F.faults files.old) (F.faults files.new))) }

    // Reading ends at its first failed read: one more is counted where a read fault is answered, and else none.
    ensures kept { OnOk result (F.faults files.new ≡ F.faults files.old) }
    ensures counts { IfErr result (λ e. F.faults files.new ≡ counted (is_read_fault e) (F.faults files.old)) }

    // The files change by their reads alone.
    ensures unchanged { (other : List ℕ) → F.contents files.new other ≡ F.contents files.old other }
    ensures counts_up { F.faults files.old ≤ F.faults files.new }
{
    read_main(alloc, files, main)
}
