//! Values of wires.

ghost use Rattle.std.specs.Prelude.{◌≡◌, ℕ, ◌<◌, ◌≤◌, length, map};
ghost use Rattle.fourvec.specs.declared.Bit.TheVariants.{Unknown};
ghost use Rattle.fourvec.specs.Bits.{all_x};
ghost use Rattle.event_nets.specs.Tables.{store_of};

use fourvec::Four;
use items::Items;
use svex_arena::Env;

/// X at every bit.
#[tactic(auto, using(svex_shape::proofs::Readings::x_widened))]
pub fn unknown(width: u8) -> Four
    requires some { 0 < width }
    requires most { width ≤ 128 }
    ensures { result ≡ all_x width }
{
    Four::new(1, 1, 0).sext(width)
}

fn make_unknown(values: &mut [Four])
    ensures lengths { map (λ row. length row) values.new ≡ map (λ row. length row) values.old }
    ensures unknown { (n k : ℕ) → store_of values.new n k ≡ Unknown }
{
    for wire in 0..values.len() {
        values[wire] = unknown(values[wire].width());
    }
}

/// Sets every bit to X, and holds a previous valuation and a stimulus.
pub fn hold(env: &mut Env, previous: &Items<Four>, stim: &Items<Four>)
    requires previous { length previous.now ≡ length env.old.previous }
    requires stim { length stim.now ≡ length env.old.stim }
    ensures previous { env.new.previous ≡ previous.now }
    ensures stim { env.new.stim ≡ stim.now }
    ensures lengths { map (λ row. length row) env.new.present ≡ map (λ row. length row) env.old.present }
    ensures unknown { (n k : ℕ) → store_of env.new.present n k ≡ Unknown }
{
    env.previous.copy_from_slice(previous.as_slice());
    env.stim.copy_from_slice(stim.as_slice());
    make_unknown(&mut env.present);
}

/// Copies every value.
pub fn copy_all(from: &[Four], into: &mut Items<Four>)
    requires { length into.old ≡ length from.now }
    ensures { into.new ≡ from.now }
{
    for wire in 0..from.len() {
        into.set(wire, from[wire]);
    }
}
