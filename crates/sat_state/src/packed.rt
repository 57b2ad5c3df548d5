//! Literals in half of the memory.

ghost use Rattle.std.specs.Prelude.{◌≡◌, ◌*◌, ◌+◌, ◌<◌, ◌^◌};
ghost use Rattle.sat_state.specs.Watch.{code};

use cnf::Dim;
use std::marker::Model;

/// A `Dim` in half of its memory: the 8 bytes in which the solver holds what it looks at most often, its variable twice, and one
/// more where it is negated. Contracts see the `Dim`.
#[derive(Clone, Copy)]
pub struct PackedDim {
    code: usize,
}

impl Model for PackedDim {
    ghost use Rattle.std.specs.Prelude.{◌*◌, ◌/◌, ◌%◌, ◌+◌, ◌==◌, if◌then◌else◌};
    ghost use Rattle.cnf.specs.declared.Dim.{Dim};

    ghost Value = { Dim };

    ghost view = { λ l. record { var = l.code / 2; negated = l.code % 2 == 1 } };

    ghost inverse = { λ d. record { code = 2 * d.var + (if d.negated then 1 else 0) } };
}

impl PackedDim {
    /// The literal, packed.
    pub fn of(d: Dim) -> PackedDim
        requires { 2 * d.var + 1 < 2 ^ 64 }
        ensures { result ≡ d }
    {
        let sign = usize::from(d.negated);
        PackedDim {
            code: d.var * 2 + sign,
        }
    }

    /// The literal.
    pub fn dim(&self) -> Dim
        ensures same { result ≡ self.now }
        ensures narrow { 2 * result.var + 1 < 2 ^ 64 }
    {
        Dim {
            var: self.code / 2,
            negated: self.code % 2 == 1,
        }
    }

    /// The number of the literal among all: that of its variable twice, and one more where it is negated.
    pub fn code(&self) -> usize
        ensures { result ≡ code self.now }
    {
        self.code
    }
}
