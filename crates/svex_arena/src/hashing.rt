//! Hashes of shapes. Each word of a shape goes into two lanes, each with a factor of its own, and both make the hash: a word that
//! makes good for another in one lane does not in the other. What goes into a lane is squared on the way, since from lanes that
//! are linear the last word of a shape with a wanted hash is solved for. So many shapes with one hash have to be searched
//! for. No contract says that hashes are apart, and only time depends on them.

ghost use Rattle.std.specs.Prelude.{◌≡◌, ◌<◌};
ghost use Rattle.svex_arena.specs.Hashes.{hash_of, lanes_of, mixed, halves_of, spread_of, kind_of, bin_code, un_code, name_lanes};

use svex_shape::{Bin, Node, Shape, Un, VarName};

// What each lane multiplies by: odd numbers, the first of which is 2 ^ 64 over the golden ratio.
const FACTOR_A: u64 = 11_400_714_819_323_198_485;

const FACTOR_B: u64 = 14_181_476_777_654_086_739;

// What each lane divides by, to add the upper part of a product to it: 2 ^ 32 and 2 ^ 29.
const PART_A: u64 = 4_294_967_296;

const PART_B: u64 = 536_870_912;

// What the words so far make, twice.
#[derive(Clone, Copy)]
struct Lanes {
    a: u64,
    b: u64,
}

// Another word for each word, but for few, and no multiple of it.
fn spread(n: u64, factor: u64, part: u64) -> u64
    requires { 0 < part }
    ensures { result ≡ spread_of n factor part }
{
    let square = n.wrapping_mul(n.wrapping_mul(2).wrapping_add(1));
    let product = square.wrapping_mul(factor);
    product.wrapping_add(product / part)
}

#[tactic(auto, unfolding(crate::specs::Hashes::kind_of))]
fn kind(number: u64) -> Lanes
    ensures { result ≡ kind_of number }
{
    Lanes {
        a: number,
        b: number,
    }
}

#[tactic(auto, unfolding(crate::specs::Hashes::mixed))]
fn mix(lanes: Lanes, word: u64) -> Lanes
    ensures { result ≡ mixed lanes word }
{
    Lanes {
        a: spread(lanes.a.wrapping_add(word), FACTOR_A, PART_A),
        b: spread(lanes.b.wrapping_add(word), FACTOR_B, PART_B),
    }
}

fn mix_two(lanes: Lanes, a: &Node, b: &Node) -> Lanes
    ensures { result ≡ mixed (mixed lanes a.now) b.now }
{
    mix(mix(lanes, a.index() as u64), b.index() as u64)
}

#[tactic(auto, unfolding(crate::specs::Hashes::halves_of))]
fn mix_halves(lanes: Lanes, n: u128) -> Lanes
    ensures { result ≡ halves_of lanes n }
{
    mix(
        mix(lanes, (n % 18446744073709551616) as u64),
        (n / 18446744073709551616) as u64,
    )
}

fn bin_number(op: &Bin) -> u64
    ensures { result ≡ bin_code op.now }
{
    match op {
        Bin::And => 1,
        Bin::Or => 2,
        Bin::Xor => 3,
        Bin::Eq => 4,
        Bin::Lt => 5,
        Bin::Slt => 6,
        Bin::Add => 7,
        Bin::Sub => 8,
        Bin::Mul => 9,
        Bin::Div => 10,
        Bin::Rem => 11,
        Bin::Sdiv => 12,
        Bin::Srem => 13,
        Bin::Res => 14,
        Bin::Shl => 15,
        Bin::Shr => 16,
        Bin::Sar => 17,
        Bin::Concat => 18,
    }
}

fn un_number(op: &Un) -> u64
    ensures { result ≡ un_code op.now }
{
    match op {
        Un::Unfloat => 19,
        Un::Not => 20,
        Un::Neg => 21,
        Un::RedAnd => 22,
        Un::RedOr => 23,
        Un::RedXor => 24,
        Un::Truth => 25,
    }
}

fn mix_name(name: &VarName) -> Lanes
    ensures { result ≡ name_lanes name.now }
{
    match name {
        VarName::Now(at) => mix(kind(26), *at as u64),
        VarName::Prev(at) => mix(kind(27), *at as u64),
        VarName::Stim(at) => mix(kind(28), *at as u64),
        VarName::Chosen(at) => mix(kind(29), *at as u64),
        VarName::Sampled(at) => mix(kind(30), *at as u64),
    }
}

#[tactic(auto, unfolding(crate::specs::Hashes::lanes_of))]
fn mix_shape(shape: &Shape) -> Lanes
    ensures { result ≡ lanes_of shape.now }
{
    match shape {
        Shape::Const(value) => mix_halves(
            mix_halves(mix(kind(31), value.width() as u64), value.up()),
            value.low(),
        ),
        Shape::Var(name, width) => mix(mix_name(name), *width as u64),
        Shape::Unary(op, a) => mix(kind(un_number(op)), a.index() as u64),
        Shape::Binary(op, a, b) => mix_two(kind(bin_number(op)), a, b),
        Shape::Cond(c, a, b) => mix_two(mix(kind(32), c.index() as u64), a, b),
        Shape::Pick(c, a, b) => mix_two(mix(kind(33), c.index() as u64), a, b),
        Shape::Slice { of, lo, width } => {
            let lanes = mix(kind(34), of.index() as u64);
            mix(mix(lanes, *lo as u64), *width as u64)
        }
        Shape::Zext(a, width) => mix(mix(kind(35), a.index() as u64), *width as u64),
        Shape::Sext(a, width) => mix(mix(kind(36), a.index() as u64), *width as u64),
        Shape::DynSlice { of, at, spot } => mix_two(mix(kind(37), spot.width as u64), of, at),
        Shape::DynPut { of, at, spot, put } => {
            let lanes = mix_two(mix(kind(38), spot.width as u64), of, at);
            mix(lanes, put.index() as u64)
        }
    }
}

/// The hash of a shape.
#[tactic(auto, unfolding(crate::specs::Hashes::hash_of))]
pub fn hash(shape: &Shape) -> u64
    ensures { result ≡ hash_of shape.now }
{
    let lanes = mix_shape(shape);
    spread(lanes.a.wrapping_add(lanes.b), FACTOR_A, PART_A)
}
