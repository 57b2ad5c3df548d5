// The texts. Each is a list of parts, and the lines of registers are repeated for each of them. They are put behind a vector that the
// caller holds, so that nothing is dropped where memory is wanted.
ghost use Rattle.std.specs.Prelude.{◌≡◌, ◌++◌, ◌-◌, ◌≤◌, IfOk, OnOk};
ghost use Rattle.svtv_selftest.specs.Texts as t;
ghost use Rattle.svtv_selftest.specs.Texts.{each_from, handing, most, registers};

use crate::parts::{Part, push_parts};
use std::alloc::{AllocError, Global};

// The registers with this number.
fn push_registers(text: &mut Vec<u8>, number: u64) -> Result<(), AllocError>
    ensures { OnOk result (text.new.items ≡ text.old.items ++ registers number) }
{
    push_parts(
        text,
        &[
            Part::Word(b"  logic [31:0] r"),
            Part::Number(number),
            Part::Word(b"; logic [7:0] t"),
            Part::Number(number),
            Part::Word(b";\n"),
        ],
    )
}

// What the registers with this number take from those before them.
fn push_handing(text: &mut Vec<u8>, number: u64) -> Result<(), AllocError>
    requires { 1 ≤ number }
    ensures { OnOk result (text.new.items ≡ text.old.items ++ handing number) }
{
    let before = number - 1;
    push_parts(
        text,
        &[
            Part::Word(b"    r"),
            Part::Number(number),
            Part::Word(b" <= {r"),
            Part::Number(before),
            Part::Word(b"[30:0], ~r"),
            Part::Number(before),
            Part::Word(b"[31]}; t"),
            Part::Number(number),
            Part::Word(b" <= t"),
            Part::Number(before),
            Part::Word(b";\n"),
        ],
    )
}

fn push_all_registers(text: &mut Vec<u8>, count: u64) -> Result<(), AllocError>
    ensures { OnOk result (text.new.items ≡ text.old.items ++ each_from 1 count registers) }
{
    'registers: for k in 0..count {
        push_registers(text, k + 1)?;
    }
    Ok(())
}

fn push_all_handing(text: &mut Vec<u8>, count: u64) -> Result<(), AllocError>
    requires { (1 ≤ count) × (count ≤ most) }
    ensures { OnOk result (text.new.items ≡ text.old.items ++ each_from 2 (count - 1) handing) }
{
    'handing: for k in 0..count - 1 {
        push_handing(text, k + 2)?;
    }
    Ok(())
}

fn push_design(text: &mut Vec<u8>, count: u64) -> Result<(), AllocError>
    requires { (1 ≤ count) × (count ≤ most) }
    ensures { OnOk result (text.new.items ≡ text.old.items ++ t.design_text count) }
{
    text.extend_from_slice(
        b"module st(input logic clk, input logic [31:0] a, input logic [7:0] p, q, output logic [31:0] y, output logic [7:0] u);\n",
    )?;
    push_all_registers(text, count)?;
    text.extend_from_slice(
        b"  always_ff @(posedge clk) begin\n    r1 <= {a[30:0], ~a[31]}; t1 <= p + q;\n",
    )?;
    push_all_handing(text, count)?;
    push_parts(
        text,
        &[
            Part::Word(b"  end\n  assign y = r"),
            Part::Number(count),
            Part::Word(b"; assign u = t"),
            Part::Number(count),
            Part::Word(b";\nendmodule\n"),
        ],
    )
}

/// The design of a self test with so many registers in a row.
pub fn design_text(alloc: Global, count: u64) -> Result<Vec<u8>, AllocError>
    requires { (1 ≤ count) × (count ≤ most) }
    ensures { IfOk result (λ text. text.items ≡ t.design_text count) }
{
    let mut text = Vec::new(alloc);
    push_design(&mut text, count)?;
    Ok(text)
}

/// Its table, with two phases for each cycle of the clock.
pub fn table_text(alloc: Global, count: u64) -> Result<Vec<u8>, AllocError>
    requires { (1 ≤ count) × (count ≤ most) }
    ensures { IfOk result (λ text. text.items ≡ t.table_text count) }
{
    let mut text = Vec::new(alloc);
    let others = 2 * count - 1;
    push_parts(
        &mut text,
        &[
            Part::Word(b"in,clk,0"),
            Part::Often(others, b",~"),
            Part::Word(b"\nin,a,a"),
            Part::Often(others, b",_"),
            Part::Word(b"\nin,p,p"),
            Part::Often(others, b",_"),
            Part::Word(b"\nin,q,q"),
            Part::Often(others, b",_"),
            Part::Word(b"\nout,y"),
            Part::Often(others, b","),
            Part::Word(b",s\nout,u"),
            Part::Often(others, b","),
            Part::Word(b",w\n"),
        ],
    )?;
    Ok(text)
}

/// Its goals: the vector came out turned, the sum came out, and the vector came out as it was, which fails.
pub fn goals_text(alloc: Global, count: u64) -> Result<Vec<u8>, AllocError>
    requires { (1 ≤ count) × (count ≤ most) }
    ensures { IfOk result (λ text. text.items ≡ t.goals_text count) }
{
    let mut text = Vec::new(alloc);
    push_parts(
        &mut text,
        &[
            Part::Word(b"goal turn { claim s == {a["),
            Part::Number(31 - count),
            Part::Word(b":0], ~a[31:"),
            Part::Number(32 - count),
            Part::Word(b"]}; }\ngoal sum { claim w == q + p; }\ngoal same { claim s == a; }\n"),
        ],
    )?;
    Ok(text)
}
