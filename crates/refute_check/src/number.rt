//! One number of a row.

ghost use Rattle.std.specs.Prelude.{◌≡◌};
ghost use Rattle.refute_check.specs.Groups.{grown, value, whole};

/// What the groups of a number but the last make up, and the last, which is below 128.
#[derive(Clone, Copy)]
pub struct Number {
    pub front: usize,
    pub last: u8,
}

/// What groups make up with one more.
#[tactic(auto, using(crate::proofs::Rows::mod_first), unfolding(crate::specs::Groups::grown))]
pub fn with_group(front: usize, byte: u8) -> usize
    ensures { result ≡ grown front byte }
{
    front
        .wrapping_mul(128)
        .wrapping_add(usize::from(byte % 128))
}

impl Number {
    /// A number of a word.
    #[tactic(auto, using(crate::proofs::Rows::whole_back), unfolding(crate::specs::Groups::whole))]
    pub fn of(n: usize) -> Number
        ensures is { result ≡ whole n }
        ensures back { value (whole n) ≡ n }
    {
        Number {
            front: n / 128,
            last: (n % 128) as u8,
        }
    }

    /// The number, as a word.
    #[tactic(auto, using(crate::proofs::Rows::mod_first), unfolding(crate::specs::Groups::value))]
    pub fn value(&self) -> usize
        ensures { result ≡ value self.now }
    {
        self.front
            .wrapping_mul(128)
            .wrapping_add(usize::from(self.last))
    }
}
