//! A row of numbers, each of as many groups of 7 bits as it takes (a variable-length code).

ghost use Rattle.std.specs.Prelude.{◌≡◌, ◌<◌, IfOk, OnOk, ◌++◌, ◌∷◌, []};
ghost use Rattle.std.specs.List.{All};
ghost use Rattle.refute_check.specs.Groups.{begun, numbers_from};

use crate::number::Number;
use crate::reader::Reader;
use std::alloc::{AllocError, Global};
use std::marker::Model;

/// Numbers in a row, in no more bytes than they take.
#[derive(Drop)]
pub struct NumberRow {
    bytes: Vec<u8>,
}

impl Model for NumberRow {
    ghost use Rattle.std.specs.Prelude.{List};
    ghost use Rattle.refute_check.specs.declared.number.Number.{Number};
    ghost use Rattle.refute_check.specs.Groups.{numbers_from};

    ghost Value = { List Number };

    ghost view = { λ r. numbers_from 0 r.bytes.items };
}

// In how many bytes groups stand.
fn width(front: usize) -> usize {
    let bits = 64usize.saturating_sub(front.leading_zeros() as usize);
    bits.saturating_add(6) / 7
}

// In how many bytes all numbers stand.
fn room(numbers: &[Number]) -> usize {
    let mut count = numbers.len();
    for number in numbers {
        count = count.saturating_add(width(number.front));
    }
    count
}

// Puts the groups before the last one behind bytes.
#[tactic(auto, using(crate::proofs::Rows::front_numbers, crate::proofs::Rows::front_begun))]
fn push_front(bytes: &mut Vec<u8>, front: usize) -> Result<(), AllocError>
    requires { begun 0 bytes.old.items ≡ 0 }
    ensures numbers { OnOk result (numbers_from 0 bytes.new.items ≡ numbers_from 0 bytes.old.items) }
    ensures begun { OnOk result (begun 0 bytes.new.items ≡ front) }
{
    if front == 0 {
        return Ok(());
    }
    push_front(bytes, front / 128)?;
    bytes.push(128 + (front % 128) as u8)?;
    Ok(())
}

// Puts a number behind bytes.
#[tactic(auto, using(crate::proofs::Rows::last_numbers, crate::proofs::Rows::last_begun))]
fn push(bytes: &mut Vec<u8>, front: usize, last: u8) -> Result<(), AllocError>
    requires last { last < 128 }
    requires begun { begun 0 bytes.old.items ≡ 0 }
    ensures numbers { OnOk result (numbers_from 0 bytes.new.items ≡ numbers_from 0 bytes.old.items ++ record { front = front; last = last } ∷ []) }
    ensures begun { OnOk result (begun 0 bytes.new.items ≡ 0) }
{
    push_front(bytes, front)?;
    bytes.push(last)?;
    Ok(())
}

impl NumberRow {
    /// These numbers in a row. Its room is taken once.
    pub fn of(alloc: Global, numbers: &[Number]) -> Result<NumberRow, AllocError>
        requires { All (λ n. n.last < 128) numbers.now }
        ensures { IfOk result (λ row. row ≡ numbers.now) }
    {
        let mut bytes = Vec::with_capacity(alloc, room(numbers))?;
        for number in numbers {
            push(&mut bytes, number.front, number.last)?;
        }
        Ok(NumberRow { bytes })
    }

    /// Reads the row from its front.
    pub fn reader(&self) -> Reader<'_>
        ensures { result ≡ self.now }
    {
        Reader::of(self.bytes.as_slice())
    }
}
