// Where the refusals of a design stand.
ghost use Rattle.std.specs.Prelude.{◌≡◌, ◌⊎◌, ◌<◌, length, Option, Err};
ghost use Rattle.std.specs.List.{Contains};
ghost use Rattle.design_loops.specs.Passed.{sound_design};
ghost use Rattle.sv_meaning.specs.Faults.{Faults};
ghost use Rattle.sv_outside.specs.Text.{TokenList};
ghost use Rattle.sv_outside.specs.declared.refusal.Refusal.{Refusal};
ghost use Rattle.sv_outside.specs.declared.refusal.TextErr.TheVariants.{No};
ghost use Rattle.sv_parser.specs.Answers.{IsSpelled};
ghost use Rattle.sv_parser.specs.Whole.{IsDeep, IsSyntax};
ghost use Rattle.sv_preproc.specs.Directives.{IsWholeText};
ghost use Rattle.sv_preproc.specs.Laws.{Possible};
ghost use Rattle.sv_tree.specs.declared.design.Source.{Source};
ghost use Rattle.svtv_files.specs.Files.{Text, Told};

/// What the syntax, the nesting or the meaning of a text is refused for stands in one of the files that were read for it. The directives tell
/// the file by its name.
pub fn refusals_lie_in_files()
    ensures unparsed { (told : Told) (name : Text) (tokens : TokenList) (r : Refusal) → IsWholeText (Possible told) name tokens
        → IsSyntax tokens.list tokens.end (No r) ⊎ IsDeep tokens.list tokens.end (No r) → r.place.file < length tokens.files }
    ensures faulty { (told : Told) (name : Text) (tokens : TokenList) (tree : Source) (top : Option Text) (faults : Faults) (r : Refusal)
        → IsWholeText (Possible told) name tokens → IsSpelled tree tokens.list → sound_design tree top ≡ Err faults → Contains faults r
        → r.place.file < length tokens.files }
{}
