//! Pieces of a dump: codes, values, declarations and phases.

ghost use Rattle.std.specs.Prelude.{◌≡◌, ◌≢◌, ◌↔◌, IsTrue, ◌%◌, ◌<◌, ◌+◌, ◌++◌, ◌∷◌, [], length, All, OnOk, MatchOption, option_copied, slice_get};
ghost use Rattle.std.specs.List.{flat_map};
ghost use Rattle.std.specs.Str.{bytes_eq};
ghost use Rattle.vcd_print.specs.Printed as printed;
ghost use Rattle.vcd_print.specs.Printed.{code_of, closed, scope_line, digits_of, change_line, time_line, lines_since, phase_text, scopes_of, name_of, IsCut, moved, var_line, wire_lines, declared, declarations, is_same};
ghost use Rattle.vcd_print.specs.Dumps.{HasBits};

use fourvec::{Four, digit};
use itoa::Buffer;
use std::alloc::AllocError;
use sv_outside::Signal;

const BASE: usize = 94;

// The byte of the lowest digit of a number.
fn digit_of(number: usize) -> u8
    ensures { result ≡ 33 + number % 94 }
{
    b'!' + (number % BASE) as u8
}

// The code of a wire, by its number.
fn push_code(text: &mut Vec<u8>, number: usize) -> Result<(), AllocError>
    ensures { OnOk result (text.new.items ≡ text.old.items ++ code_of number) }
{
    text.push(digit_of(number))?;
    let mut rest = number / BASE;
    'digits: while rest > 0 {
        text.push(digit_of(rest))?;
        rest /= BASE;
    }
    Ok(())
}

// All bits, the most significant first.
fn push_bits(text: &mut Vec<u8>, value: &Four) -> Result<(), AllocError>
    ensures { OnOk result (text.new.items ≡ text.old.items ++ digits_of value.now) }
{
    let mut at = value.width();
    'bits: while at > 0 {
        at -= 1;
        text.push(digit(value.bit(at)))?;
    }
    Ok(())
}

// A code and a line end.
fn push_code_line(text: &mut Vec<u8>, number: usize) -> Result<(), AllocError>
    ensures { OnOk result (text.new.items ≡ text.old.items ++ (code_of number ++ (10 ∷ []))) }
{
    push_code(text, number)?;
    text.push(b'\n')?;
    Ok(())
}

// More bits than one, and the code.
fn push_vector(text: &mut Vec<u8>, number: usize, value: &Four) -> Result<(), AllocError>
    ensures { OnOk result (text.new.items ≡ text.old.items ++ printed.vector_line number value.now) }
{
    text.push(b'b')?;
    push_bits(text, value)?;
    text.push(b' ')?;
    push_code_line(text, number)
}

// One bit, and the code.
fn push_scalar(text: &mut Vec<u8>, number: usize, value: &Four) -> Result<(), AllocError>
    ensures { OnOk result (text.new.items ≡ text.old.items ++ printed.scalar_line number value.now) }
{
    push_bits(text, value)?;
    push_code_line(text, number)
}

// The value of a wire.
fn push_change(text: &mut Vec<u8>, number: usize, value: &Four) -> Result<(), AllocError>
    ensures text { OnOk result (text.new.items ≡ text.old.items ++ change_line number value.now) }
    ensures bits { HasBits value.now }
{
    if value.width() == 1 {
        push_scalar(text, number, value)
    } else {
        push_vector(text, number, value)
    }
}

// `#t`.
fn push_time(text: &mut Vec<u8>, time: usize) -> Result<(), AllocError>
    ensures { OnOk result (text.new.items ≡ text.old.items ++ time_line time) }
{
    let mut buffer = Buffer::new();
    text.push(b'#')?;
    text.extend_from_slice(buffer.format(time).as_bytes())?;
    text.push(b'\n')?;
    Ok(())
}

// The first part of a path and what stands behind its dot; None where it has one part.
fn cut(path: &[u8]) -> Option<(&[u8], &[u8])>
    ensures { MatchOption result (All (λ b. b ≢ 46) path.now) (λ p. IsCut path.now p.0.now p.1.now) }
{
    let dot = path.iter().position(|b| *b == b'.')?;
    let (part, rest) = path.split_at(dot);
    Some((part, &rest[1..]))
}

// Closes the scopes of a path.
fn push_closed(text: &mut Vec<u8>, path: &[u8]) -> Result<(), AllocError>
    ensures { OnOk result (text.new.items ≡ text.old.items ++ closed (length (scopes_of path.now))) }
{
    let mut rest = path;
    'scopes: while let Some((_, more)) = cut(rest) {
        text.extend_from_slice(b"$upscope $end\n")?;
        rest = more;
    }
    Ok(())
}

fn push_scope(text: &mut Vec<u8>, name: &[u8]) -> Result<(), AllocError>
    ensures { OnOk result (text.new.items ≡ text.old.items ++ scope_line name.now) }
{
    text.extend_from_slice(b"$scope module ")?;
    text.extend_from_slice(name)?;
    text.extend_from_slice(b" $end\n")?;
    Ok(())
}

fn push_var(text: &mut Vec<u8>, number: usize, width: u8, name: &[u8]) -> Result<(), AllocError>
    ensures { OnOk result (text.new.items ≡ text.old.items ++ var_line number width name.now) }
{
    let mut buffer = Buffer::new();
    text.extend_from_slice(b"$var wire ")?;
    text.extend_from_slice(buffer.format(width).as_bytes())?;
    text.push(b' ')?;
    push_code(text, number)?;
    text.push(b' ')?;
    text.extend_from_slice(name)?;
    text.extend_from_slice(b" $end\n")?;
    Ok(())
}

// Opens the scopes of a path, and declares its signal in them.
fn push_opened(text: &mut Vec<u8>, number: usize, width: u8, path: &[u8]) -> Result<(), AllocError>
    ensures { OnOk result (text.new.items ≡ text.old.items ++ printed.opened number width path.now) }
{
    let mut rest = path;
    'scopes: while let Some((scope, more)) = cut(rest) {
        push_scope(text, scope)?;
        rest = more;
    }
    push_var(text, number, width, rest)
}

fn is_same_text(one: &[u8], other: &[u8]) -> bool
    ensures { result ≡ bytes_eq one.now other.now }
{
    one == other
}

// What is left of two paths behind the scopes that they share.
fn unshared<'a, 'b>(held: &'a [u8], path: &'b [u8]) -> (&'a [u8], &'b [u8])
    ensures moved { moved (scopes_of held.now) (scopes_of path.now) ≡ closed (length (scopes_of result.0.now)) ++ flat_map scope_line (scopes_of result.1.now) }
    ensures name { name_of path.now ≡ name_of result.1.now }
{
    let mut held = held;
    let mut path = path;
    'scopes: while let Some((scope, more)) = cut(held) {
        let Some((other, rest)) = cut(path) else {
            return (held, path);
        };
        if !is_same_text(scope, other) {
            return (held, path);
        }
        held = more;
        path = rest;
    }
    (held, path)
}

// A wire, where the scopes of a path are open.
#[tactic(auto, using(crate::proofs::Printing::wire_pushed))]
fn push_wire(
    text: &mut Vec<u8>,
    held: &[u8],
    number: usize,
    wire: &Signal,
) -> Result<(), AllocError>
    ensures text { OnOk result (text.new.items ≡ text.old.items ++ wire_lines held.now number wire.now) }
    ensures width { OnOk result (wire.now.width < 256) }
{
    let (held, path) = unshared(held, wire.path.bytes());
    push_closed(text, held)?;
    push_opened(text, number, wire.width, path)
}

// All wires, and the closing of what is open then.
fn push_declared(text: &mut Vec<u8>, wires: &[Signal]) -> Result<(), AllocError>
    ensures text { OnOk result (text.new.items ≡ text.old.items ++ declared [] 0 wires.now) }
    ensures widths { OnOk result (All (λ w. w.width < 256) wires.now) }
{
    let mut held: &[u8] = b"";
    let mut number = 0;
    'wires: for wire in wires {
        push_wire(text, held, number, wire)?;
        held = wire.path.bytes();
        number += 1;
    }
    push_closed(text, held)
}

/// All declarations.
pub fn push_declarations(text: &mut Vec<u8>, wires: &[Signal]) -> Result<(), AllocError>
    ensures text { OnOk result (text.new.items ≡ text.old.items ++ declarations wires.now) }
    ensures widths { OnOk result (All (λ w. w.width < 256) wires.now) }
{
    text.extend_from_slice(b"$timescale 1 ns $end\n")?;
    push_scope(text, b"top")?;
    push_declared(text, wires)?;
    text.extend_from_slice(b"$upscope $end\n$enddefinitions $end\n")?;
    Ok(())
}

#[tactic(auto, using(fourvec::proofs::Basic::same_when_equal, fourvec::proofs::Basic::equal_when_same))]
fn same(one: &Four, other: &Four) -> bool
    ensures { IsTrue result ↔ (one.now ≡ other.now) }
{
    *one == *other
}

// Vectors of other widths differ.
#[tactic(auto, using(crate::proofs::Printing::same_long))]
fn is_same(one: &Four, other: &Four) -> bool
    ensures same { result ≡ is_same one.now other.now }
    ensures bits { HasBits other.now }
{
    one.width() == other.width() && same(one, other)
}

// The value of a wire, if it is another than before.
fn push_changed(
    text: &mut Vec<u8>,
    number: usize,
    before: Option<&Four>,
    value: &Four,
) -> Result<(), AllocError>
    ensures text { OnOk result (text.new.items ≡ text.old.items ++ printed.changed_line number (option_copied before.entry) value.now) }
    ensures bits { OnOk result (HasBits value.now) }
{
    match before {
        Some(old) if is_same(old, value) => Ok(()),
        _ => push_change(text, number, value),
    }
}

fn value_at(values: &[Four], number: usize) -> Option<&Four>
    ensures { option_copied result ≡ slice_get values.now number }
{
    values.get(number)
}

// The values that differ from those before, or all where there are none before.
fn push_since(text: &mut Vec<u8>, before: &[Four], values: &[Four]) -> Result<(), AllocError>
    ensures text { OnOk result (text.new.items ≡ text.old.items ++ lines_since 0 before.now values.now) }
    ensures bits { OnOk result (All HasBits values.now) }
{
    let mut number = 0;
    'wires: for value in values {
        push_changed(text, number, value_at(before, number), value)?;
        number += 1;
    }
    Ok(())
}

/// A phase, behind one with these values or as the first.
pub fn push_phase(
    text: &mut Vec<u8>,
    time: usize,
    before: &[Four],
    values: &[Four],
) -> Result<(), AllocError>
    ensures text { OnOk result (text.new.items ≡ text.old.items ++ phase_text time before.now values.now) }
    ensures bits { OnOk result (All HasBits values.now) }
{
    push_time(text, time)?;
    push_since(text, before, values)
}
