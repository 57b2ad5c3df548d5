ghost use Rattle.std.specs.Prelude.{◌≡◌, [], ◌∷◌, ◌<◌, MatchOption, All, IfOk};
ghost use Rattle.lhs_alias.specs.Segs.{lhs_bits, AreSegs, IsUnited};

use crate::lhs::put_below;
use crate::segs::{Seg, WireBit};
use std::alloc::{AllocError, Global};
use std::marker::Model;

/// The bits of a list of segments that are still to come, the least significant first.
#[derive(Drop)]
pub struct Bits<'a> {
    segs: &'a [Seg],
    used: u8,
}

impl<'a> Model for Bits<'a> {
    ghost use Rattle.std.specs.Prelude.{List, drop};
    ghost use Rattle.lhs_alias.specs.declared.segs.WireBit.{WireBit};
    ghost use Rattle.lhs_alias.specs.Segs.{lhs_bits, AreSegs};
    ghost use Rattle.lhs_alias.specs.Lies.{EndsAbove};

    ghost Value = { List WireBit };

    ghost view = { λ bits. drop bits.used (lhs_bits bits.segs.now) };

    ghost invariant = { λ bits. AreSegs bits.segs.now × EndsAbove bits.used bits.segs.now };
}

impl<'a> Bits<'a> {
    pub fn new(segs: &'a [Seg]) -> Bits<'a>
        requires { AreSegs segs.now }
        ensures { result ≡ lhs_bits segs.now }
    {
        Bits { segs, used: 0 }
    }

    /// Takes the least significant bit that is left.
    pub fn next_bit(&mut self) -> Option<WireBit>
        ensures { MatchOption result ((self.old ≡ []) × (self.new ≡ [])) (λ bit. self.old ≡ bit ∷ self.new) }
    {
        let (low, higher) = self.segs.split_last()?;
        let bit = WireBit {
            wire: low.wire,
            at: low.lo + self.used,
        };
        self.used += 1;
        if self.used == low.width {
            self.segs = higher;
            self.used = 0;
        }
        Some(bit)
    }
}

/// Segments of these bits, the most significant first, in one where they adjoin. The bits stand with the least significant first.
pub fn segs_of(alloc: Global, bits: &[WireBit]) -> Result<Vec<Seg>, AllocError>
    requires { All (λ bit. bit.at < 128) bits.now }
    ensures bits { IfOk result (λ segs. lhs_bits segs.items ≡ bits.now) }
    ensures segs { IfOk result (λ segs. AreSegs segs.items) }
    ensures united { IfOk result (λ segs. IsUnited segs.items) }
{
    let mut segs = Vec::new(alloc);
    let mut rest = bits;
    while let Some((bit, lower)) = rest.split_last() {
        let low = Seg {
            wire: bit.wire,
            lo: bit.at,
            width: 1,
        };
        put_below(&mut segs, low)?;
        rest = lower;
    }
    Ok(segs)
}
