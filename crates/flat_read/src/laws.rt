//! The laws of texts: which line breaks the form, and which design a text stands for, is told by the text alone.

ghost use Rattle.std.specs.Prelude.{◌≡◌, ℕ, List};
ghost use Rattle.settling.specs.Settling.{Store};
ghost use Rattle.svex_arena.specs.Arenas.{IsArena};
ghost use Rattle.flat_net.specs.declared.flat.Flat.{Flat as Design};
ghost use Rattle.flat_net.specs.Flats.{IsFlat, Settles};
ghost use Rattle.flat_text.specs.FlatTexts.{FlatText, BreaksAt};
ghost use Rattle.flat_read.specs.Laws.{SameDesign};

/// A text that stands for a design breaks the form nowhere, so it is never refused for a line.
pub fn legal_texts_break_nowhere(text: &[u8])
    ensures { (flat : Design) (n : ℕ) → FlatText text.now flat → BreaksAt text.now n → ⊥ }
{
    // For the proof: recalls what the type promises of it.
    let _ = text.len();
}

/// At most one line of a text is the first that is missing or breaks the form.
pub fn one_line_breaks(text: &[u8])
    ensures { (m n : ℕ) → BreaksAt text.now m → BreaksAt text.now n → m ≡ n }
{
    // For the proof: recalls what the type promises of it.
    let _ = text.len();
}

/// A text stands for one design only, up to the numbers of its nodes, and all that it stands for settle alike.
pub fn texts_stand_for_one_design(text: &[u8])
    ensures same { (f g : Design) → FlatText text.now f → FlatText text.now g → SameDesign f g }
    ensures settles { (f g : Design) → IsArena f.arena → IsArena g.arena → IsFlat f → IsFlat g → FlatText text.now f → FlatText text.now g
        → (over : List ℕ) (stim prev now : Store) → Settles f over stim prev now → Settles g over stim prev now }
{
    // For the proof: recalls what the type promises of it.
    let _ = text.len();
}
