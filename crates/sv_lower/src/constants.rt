// Expressions that name no signal.
ghost use Rattle.std.specs.Prelude.{IsTrue};
ghost use Rattle.sv_lower.specs.Lowering.{each_root, each_signal, each_of, each_of_picks, each_place, no_signal};

use sv_typed::{Pick, PickPlace, Root, Typed, TypedForm};

fn is_number(root: &Root) -> bool
    ensures { IsTrue result → IsTrue (each_root no_signal root.now) }
{
    matches!(root, Root::Number(_))
}

/// Whether an expression names no signal.
#[cycle(nameless)]
pub fn is_nameless(typed: &Typed) -> bool
    ensures { IsTrue result → IsTrue (each_signal no_signal typed.now) }
{
    match &typed.form {
        TypedForm::Literal(_) => true,
        TypedForm::Named { root, picks } => {
            is_number(root) && are_picks_nameless(picks.as_slice())
        }
        TypedForm::Turned(_, a) => is_nameless(a.get()),
        TypedForm::Reduced(_, a) => is_nameless(a.get()),
        TypedForm::Computed(_, a, b) => is_nameless(a.get()) && is_nameless(b.get()),
        TypedForm::Moved(_, a, b) => is_nameless(a.get()) && is_nameless(b.get()),
        TypedForm::Compared(_, a, b) => is_nameless(a.get()) && is_nameless(b.get()),
        TypedForm::Combined(_, a, b) => is_nameless(a.get()) && is_nameless(b.get()),
        TypedForm::Chosen(c, a, b) => {
            is_nameless(c.get()) && (is_nameless(a.get()) && is_nameless(b.get()))
        }
        TypedForm::Power(a, _) => is_nameless(a.get()),
        TypedForm::Concat(all) => are_nameless(all.as_slice()),
        TypedForm::Repeat(_, all) => are_nameless(all.as_slice()),
        TypedForm::Standing(a) => is_nameless(a.get()),
        TypedForm::Fitted(a) => is_nameless(a.get()),
    }
}

#[tactic(auto, using(crate::proofs::Trees::each_none, crate::proofs::Trees::each_more, crate::proofs::Trees::each_end))]
#[cycle(nameless)]
fn are_nameless(all: &[Typed]) -> bool
    ensures { IsTrue result → IsTrue (each_of no_signal all.now) }
{
    'all: for typed in all {
        if !is_nameless(typed) {
            return false;
        }
    }
    true
}

#[tactic(auto, using(crate::proofs::Trees::each_pick_none, crate::proofs::Trees::each_pick_more, crate::proofs::Trees::each_pick_end))]
#[cycle(nameless)]
fn are_picks_nameless(picks: &[Pick]) -> bool
    ensures { IsTrue result → IsTrue (each_of_picks no_signal picks.now) }
{
    'picks: for pick in picks {
        if !is_place_nameless(&pick.place) {
            return false;
        }
    }
    true
}

#[tactic(auto, using(crate::proofs::Trees::each_places))]
#[cycle(nameless)]
fn is_place_nameless(place: &PickPlace) -> bool
    ensures { IsTrue result → IsTrue (each_place no_signal place.now) }
{
    match place {
        PickPlace::Fixed(_) => true,
        PickPlace::Moving { index, .. } => is_nameless(index.get()),
    }
}
