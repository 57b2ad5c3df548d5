//! Choices of values for variables. Of few bits there is each choice; of many, one with 0 everywhere, one with 1 everywhere, and others
//! by a generator of numbers.

use case_exprs::digits;
use case_rows::Fault;
use fourvec::Four;
use std::alloc::Global;
use svtv_table::VarDecl;

// So many bits of variables have all their choices tried.
const FEW: usize = 10;

/// How many choices are tried for so many bits.
pub fn choice_count(bits: usize) -> u64 {
    if bits <= FEW { 1 << bits } else { 100 }
}

// The number after another of a generator (Marsaglia's xorshift).
fn next(state: u64) -> u64 {
    let first = state ^ state.wrapping_shl(13);
    let second = first ^ first.wrapping_shr(7);
    second ^ second.wrapping_shl(17)
}

// The state with which the bits of a choice begin, by its number.
fn seed(choice: u64) -> u64 {
    next(next(choice.wrapping_mul(0x9e37_79b9_7f4a_7c15)))
}

fn bit_of(choice: u64, at: usize, state: u64) -> bool {
    match choice {
        0 => false,
        1 => true,
        _ => (state >> (at % 64)) & 1 == 1,
    }
}

/// The bits of a choice, by its number.
pub fn choose(bits: &mut Vec<bool>, count: usize, choice: u64) -> Result<(), Fault> {
    bits.clear();
    let mut state = seed(choice);
    for at in 0..count {
        let bit = if count <= FEW {
            choice.wrapping_shr(at as u32) & 1 == 1
        } else {
            bit_of(choice, at, state)
        };
        bits.push(bit)?;
        state = next(state);
    }
    Ok(())
}

// The vector of so many bits from a place on, the lowest first.
fn value_of(digits_of: &mut Vec<u8>, bits: &[bool], from: usize, width: u8) -> Result<Four, Fault> {
    digits_of.clear();
    for below in 0..width {
        let at = from.saturating_add(usize::from(width - 1 - below));
        let one = bits.get(at).copied().unwrap_or(false);
        digits_of.push(if one { b'1' } else { b'0' })?;
    }
    digits(digits_of).ok_or(Fault::Form)
}

/// The values of the variables under a choice, by variable and then from the lowest bit on.
pub fn values(
    alloc: Global,
    chosen: &mut Vec<Four>,
    vars: &[VarDecl],
    bits: &[bool],
) -> Result<(), Fault> {
    chosen.clear();
    let mut text: Vec<u8> = Vec::new(alloc);
    let mut from: usize = 0;
    for var in vars {
        let value = value_of(&mut text, bits, from, var.width)?;
        chosen.push(value)?;
        from = from.saturating_add(usize::from(var.width));
    }
    Ok(())
}
