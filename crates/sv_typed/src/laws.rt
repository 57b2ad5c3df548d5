// Laws of typed expressions.
ghost use Rattle.std.specs.Prelude.{◌≡◌, ◌≤◌, ℕ, Bool, length};
ghost use Rattle.sv_meaning.specs.Layouts.{Read};
ghost use Rattle.sv_typed.specs.declared.tree.Typed.{Typed};
ghost use Rattle.sv_typed.specs.Typed.{IsSound, SameOn, names_of, worth};

/// A sound expression has as many bits as its context.
#[tactic(auto, using(crate::proofs::Long::lengths))]
pub fn bits_are_as_many_as_the_context_has()
    ensures { (t : Typed) (read : Read) (w : ℕ) (s : Bool) → IsSound t → t.width ≤ w → length (worth t read w s) ≡ w }
{}

/// The bits of an expression depend on no signal but those that it names.
#[tactic(auto, using(crate::proofs::Names::same_worth))]
pub fn bits_depend_on_names()
    ensures { (t : Typed) (r q : Read) (w : ℕ) (s : Bool) → SameOn (names_of t) r q → worth t r w s ≡ worth t q w s }
{}
