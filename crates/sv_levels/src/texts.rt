// Names that the text does not spell, and which bytes are a name.
ghost use Rattle.std.specs.Prelude.{◌≡◌, ◌++◌, ◌<◌, ◌≤◌, codes, negsuc, length, IfOk, OnOk};
ghost use Rattle.std.specs.Fmt.{signed_decimal};
ghost use Rattle.std.specs.List.{list_all};
ghost use Rattle.std.specs.Option.{option_copied};
ghost use Rattle.fourvec.specs.Bits.{is_negative, signed};
ghost use Rattle.sv_outside.specs.Words.{goes_on, starts_word};
ghost use Rattle.sv_hierarchy.specs.Scopes.{block_name, block_place, is_name, turn_name};

use fourvec::{Bit, Four};
use itoa::Buffer;
use std::alloc::{AllocError, Global};
use sv_outside::{Name, Place};
use sv_tree::Word;

fn starts_a_name(b: u8) -> bool
    ensures { result ≡ starts_word b }
{
    b.is_ascii_alphabetic() || b == b'_'
}

fn goes_on_in_name(b: u8) -> bool
    ensures { result ≡ goes_on b }
{
    starts_a_name(b) || b.is_ascii_digit() || b == b'$'
}

fn all_go_on(rest: &[u8]) -> bool
    ensures { result ≡ list_all goes_on rest.now }
{
    rest.iter().all(|b| goes_on_in_name(*b))
}

/// Whether bytes are a name: a letter or an underscore, and letters, digits, underscores and dollars behind it (5.6).
pub fn is_name(bytes: &[u8]) -> bool
    ensures { result ≡ is_name bytes.now }
{
    match bytes {
        [] => false,
        [first, rest @ ..] => starts_a_name(*first) && all_go_on(rest),
    }
}

/// The name of a block: its label, or that of the construct with a number (27.6).
pub fn block_name(alloc: Global, label: Option<&Word>, number: usize) -> Result<Name, AllocError>
    ensures { IfOk result (λ name. name ≡ block_name (option_copied label.entry) number) }
{
    match label {
        Some(word) => word.text.copy(),
        None => {
            let mut buffer = Buffer::new();
            let mut bytes = b"genblk".to_vec(alloc)?;
            bytes.extend_from_slice(buffer.format(number).as_bytes())?;
            Name::new(alloc, &bytes)
        }
    }
}

/// Where that name stands, or else the first token of the block.
pub fn block_place(label: Option<&Word>, start: Place) -> Place
    ensures { result ≡ block_place (option_copied label.entry) start }
{
    match label {
        Some(word) => word.place,
        None => start,
    }
}

// The number below zero that stands so far below -1.
fn below_zero(distance: u128) -> i128
    requires { distance < 170141183460469231731687303715884105728 }
    ensures { result ≡ negsuc distance }
{
    -1 - distance as i128
}

// Whether the highest bit is 1.
#[tactic(auto, using(fourvec::proofs::Signed::negative_read))]
fn is_negative(bits: &Four) -> bool
    ensures is { result ≡ is_negative bits.now }
    ensures most { length bits.now ≤ 128 }
{
    bits.bit(bits.width() - 1) == Bit::One
}

// The signed number of a vector, in which a bit that is no 1 counts as 0.
fn number_of(bits: &Four) -> i128
    ensures { result ≡ signed bits.now }
{
    let number = bits.unfloat().low();
    if is_negative(bits) {
        below_zero((u128::MAX >> (128 - bits.width())) - number)
    } else {
        number as i128
    }
}

// A number in brackets, behind so much.
fn push_index(bytes: &mut Vec<u8>, number: i128) -> Result<(), AllocError>
    ensures { OnOk result (bytes.new.items ≡ bytes.old.items ++ (codes "[" ++ (signed_decimal number ++ codes "]"))) }
{
    let mut buffer = Buffer::new();
    bytes.push(b'[')?;
    bytes.extend_from_slice(buffer.format(number).as_bytes())?;
    bytes.push(b']')?;
    Ok(())
}

/// The name of a turn's block, by the signed value of the loop's variable (27.4).
pub fn turn_name(alloc: Global, block: &[u8], bits: &Four) -> Result<Name, AllocError>
    ensures { IfOk result (λ name. name ≡ turn_name block.now bits.now) }
{
    let mut bytes = block.to_vec(alloc)?;
    push_index(&mut bytes, number_of(bits))?;
    Name::new(alloc, &bytes)
}
