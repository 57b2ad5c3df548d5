//! What is left of a row that is read.

ghost use Rattle.std.specs.Prelude.{◌≡◌, [], ◌∷◌, IfNone, IfSome, drop};
ghost use Rattle.refute_check.specs.Groups.{numbers_from};

use crate::number::{Number, with_group};
use std::marker::Model;

/// The numbers that are left. It takes no memory.
#[derive(Drop)]
pub struct Reader<'a> {
    rest: &'a [u8],
}

impl<'a> Model for Reader<'a> {
    ghost use Rattle.std.specs.Prelude.{List};
    ghost use Rattle.refute_check.specs.declared.number.Number.{Number};
    ghost use Rattle.refute_check.specs.Groups.{numbers_from};

    ghost Value = { List Number };

    ghost view = { λ r. numbers_from 0 r.rest.now };
}

impl<'a> Reader<'a> {
    /// The numbers of these bytes.
    pub fn of(bytes: &'a [u8]) -> Reader<'a>
        ensures { result ≡ numbers_from 0 bytes.now }
    {
        Reader { rest: bytes }
    }

    /// The next number, if one is left.
    #[tactic(auto, using(crate::proofs::Rows::read_last, crate::proofs::Rows::read_more, crate::proofs::Rows::read_end))]
    pub fn next(&mut self) -> Option<Number>
        ensures none { IfNone result (self.old ≡ []) }
        ensures end { IfNone result (self.new ≡ []) }
        ensures some { IfSome result (λ n. self.old ≡ n ∷ self.new) }
    {
        let bytes = self.rest;
        let mut front = 0;
        for (i, byte) in bytes.iter().enumerate() {
            if *byte < 128 {
                self.rest = &bytes[i + 1..];
                return Some(Number { front, last: *byte });
            }
            front = with_group(front, *byte);
        }
        self.rest = &[];
        None
    }

    /// Goes behind so many numbers, or to the end.
    #[tactic(auto, using(crate::proofs::Rows::skip_more, crate::proofs::Rows::skip_end, crate::proofs::Rows::skip_none))]
    pub fn skip(&mut self, count: usize)
        ensures { self.new ≡ drop count self.old }
    {
        for _ in 0..count {
            match self.next() {
                None => return,
                Some(_) => {}
            }
        }
    }
}
