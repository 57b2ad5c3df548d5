//! Laws of places: where the refusals of a design stand.
#![tactic(auto)]

ghost use Rattle.std.specs.Prelude.{◌<◌, ℕ, List, [], length, Option, Bool, IsTrue, All};
ghost use Rattle.sv_outside.specs.declared.refusal.Place.{Place};
ghost use Rattle.sv_outside.specs.declared.text.Token.{Token};
ghost use Rattle.sv_outside.specs.Text.{TokenList};
ghost use Rattle.sv_preproc.specs.Directives.{IsWholeText};
ghost use Rattle.sv_preproc.specs.Laws.{Possible};
ghost use Rattle.sv_tree.specs.declared.design.Source.{Source};
ghost use Rattle.sv_tree.specs.GrammarDesign.{SpellsSource};
ghost use Rattle.sv_meaning.specs.Layouts.{Name};
ghost use Rattle.sv_hierarchy.specs.Scopes.{design_start, source_faults};
ghost use Rattle.sv_places.specs.Within.{Within};

/// Each token that a text stands for lies in one of the files that were read for it, and so does the end of the text.
pub fn tokens_lie_in_files()
    ensures tokens { (told : List ℕ → Option (List ℕ)) (main : List ℕ) (text : TokenList) → IsWholeText (Possible told) main text
        → All (λ a. a.place.file < length text.files) text.list }
    ensures end { (told : List ℕ → Option (List ℕ)) (main : List ℕ) (text : TokenList) → IsWholeText (Possible told) main text
        → text.end.file < length text.files }
{}

/// Each place that a tree keeps is that of a token by which it is spelled.
pub fn trees_keep_places_of_tokens()
    ensures { (test : Place → Bool) (source : Source) (tokens : List Token) → SpellsSource source tokens []
        → All (λ a. IsTrue (test a.place)) tokens → Within (λ p. IsTrue (test p)) source }
{}

/// What stands against a source stands at a place that its tree keeps, or at 1:1 of the main file: each test that these pass is passed by the
/// place of each fault.
pub fn faults_stand_in_the_text()
    ensures { (test : Place → Bool) (source : Source) (top : Option Name) → Within (λ p. IsTrue (test p)) source → IsTrue (test design_start)
        → All (λ r. IsTrue (test r.place)) (source_faults source top) }
{}
