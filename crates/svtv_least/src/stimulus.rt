// What comes from outside in a phase: X at every bit, over that what the `in` rows drive, and over that what the `over` rows set.
// What no row drives and what may be anything is X, since it has to lie below all that the table allows. No wire has two rows of
// one kind, so the order of rows says nothing; they are gone through from the last on, as the definition has each row in front
// of those behind it.
ghost use Rattle.std.specs.Prelude.{◌≡◌, ℕ, ◌<◌, ◌≤◌, ◌∷◌, ◌++◌, [], length, map, slice_index_or, All, IfOk, None, Some};
ghost use Rattle.fourvec.specs.declared.Bit.TheVariants.{Unknown};
ghost use Rattle.fourvec.specs.Bits.{all_x};
ghost use Rattle.driver_resolve.specs.Drivers.{widths_of};
ghost use Rattle.flat_net.specs.Flats.{IsSignal};
ghost use Rattle.event_sim.specs.Sims.{IsValuation, store_of};
ghost use Rattle.svtv_table.specs.declared.bound.Drive.TheVariants as drive;
ghost use Rattle.settling.specs.Settling.{Store};
ghost use Rattle.svtv_table.specs.Stimuli.{drive_value, given, setting_value, settings_in, values_of};
ghost use Rattle.svtv_runs.specs.Runs.{Asks, driven_rows, set_if, set_rows};
ghost use Rattle.svtv_runs.specs.Leasts.{set_over};
ghost use Rattle.svtv_least.specs.Running.{Gives, IsGiven, Sets, asked_vector};

use fourvec::Four;
use items::Items;
use std::alloc::{AllocError, Global};
use sv_outside::Signal;
use svtv_table::Drive;

/// X alone.
#[tactic(auto, using(event_nets::proofs::Reading::ones))]
fn unknown_bit() -> Four
    ensures { result ≡ Unknown ∷ [] }
{
    Four::new(1, 1, 0)
}

/// X at every bit.
#[tactic(auto, using(svex_shape::proofs::Readings::x_widened))]
pub(crate) fn unknown(width: u8) -> Four
    requires some { 0 < width }
    requires most { width ≤ 128 }
    ensures { result ≡ all_x width }
{
    unknown_bit().sext(width)
}

/// X at every bit of all wires.
pub(crate) fn unknowns(alloc: Global, wires: &[Signal]) -> Result<Items<Four>, AllocError>
    requires { All IsSignal wires.now }
    ensures valuation { IfOk result (IsValuation (widths_of wires.now)) }
    ensures unknown { IfOk result (λ values. (n k : ℕ) → store_of values n k ≡ Unknown) }
{
    let mut values = Items::new(alloc);
    'wires: for wire in wires {
        values.push(unknown(wire.width))?;
    }
    Ok(values)
}

/// Copies values over as many others.
pub(crate) fn copy(from: &[Four], into: &mut Items<Four>)
    requires { length from.now ≡ length into.old }
    ensures { into.new ≡ from.now }
{
    'values: for at in 0..from.len() {
        into.set(at, from[at]);
    }
}

// The value of a variable, or its complement.
fn chosen(choice: &[Four], number: usize, flipped: bool) -> Four
    requires { number < length choice.now }
    ensures is { Some result ≡ drive_value choice.now (drive.Chosen number flipped) }
    ensures width { length result ≡ length (given choice.now number) }
{
    let value = choice[number];
    if flipped { value.not() } else { value }
}

// What a drive gives to a wire of a width.
fn driven(choice: &[Four], drive: &Drive, width: u8) -> Four
    requires some { 0 < width }
    requires most { width ≤ 128 }
    requires gives { Gives choice.now width drive.now }
    ensures is { result ≡ asked_vector width (drive_value choice.now drive.now) }
    ensures width { length result ≡ width }
{
    match drive {
        Drive::Fixed(value) => *value,
        Drive::Chosen { number, flipped } => chosen(choice, *number, *flipped),
        Drive::Free => unknown(width),
    }
}

// Sets a wire to what a drive gives it, in front of all that is asked of the wires already.
fn put_drive(stim: &mut Items<Four>, wire: usize, drive: &Drive, choice: &[Four])
    requires wire { wire < length stim.old }
    requires gives { Gives choice.now (length (slice_index_or stim.old wire [])) drive.now }
    ensures widths { map (λ row. length row) stim.new ≡ map (λ row. length row) stim.old }
    ensures stim { (asks : Asks) (before : Store) → ((n k : ℕ) → store_of stim.old n k ≡ set_over asks before n k)
        → (n k : ℕ) → store_of stim.new n k ≡ set_over ((wire, drive_value choice.now drive.now) ∷ asks) before n k }
{
    let width = stim.as_slice()[wire].width();
    let value = driven(choice, drive, width);
    stim.set(wire, value);
}

// Sets a wire to what its `over` row has in a phase, if it has anything there.
fn put_setting(
    stim: &mut Items<Four>,
    wire: usize,
    settings: &[Option<Drive>],
    choice: &[Four],
    phase: usize,
)
    requires wire { wire < length stim.old }
    requires there { phase < length settings.now }
    requires gives { All (Sets choice.now (length (slice_index_or stim.old wire []))) settings.now }
    ensures widths { map (λ row. length row) stim.new ≡ map (λ row. length row) stim.old }
    ensures stim { (asks : Asks) (before : Store) → ((n k : ℕ) → store_of stim.old n k ≡ set_over asks before n k)
        → (n k : ℕ) → store_of stim.new n k ≡ set_over (set_if wire (slice_index_or (map (setting_value choice.now) settings.now) phase None) ++ asks) before n k }
{
    if let Some(drive) = &settings[phase] {
        put_drive(stim, wire, drive, choice);
    }
}

/// Sets each wire that an `in` row drives to what it is driven with in a phase.
pub(crate) fn drive(
    stim: &mut Items<Four>,
    rows: &[(usize, Items<Drive>)],
    choice: &[Four],
    phase: usize,
)
    requires { All (IsGiven (Gives choice.now) (map (λ row. length row) stim.old) phase) rows.now }
    ensures widths { map (λ row. length row) stim.new ≡ map (λ row. length row) stim.old }
    ensures stim { (n k : ℕ) → store_of stim.new n k ≡ set_over (driven_rows (values_of choice.now rows.now) phase) (store_of stim.old) n k }
{
    let mut at = rows.len();
    'rows: while at > 0 {
        at -= 1;
        let row = &rows[at];
        put_drive(stim, row.0, &row.1.as_slice()[phase], choice);
    }
}

/// Sets each wire that an `over` row overrides in a phase to what it is set to there.
pub(crate) fn override_wires(
    stim: &mut Items<Four>,
    rows: &[(usize, Items<Option<Drive>>)],
    choice: &[Four],
    phase: usize,
)
    requires { All (IsGiven (Sets choice.now) (map (λ row. length row) stim.old) phase) rows.now }
    ensures widths { map (λ row. length row) stim.new ≡ map (λ row. length row) stim.old }
    ensures stim { (n k : ℕ) → store_of stim.new n k ≡ set_over (set_rows (settings_in choice.now rows.now) phase) (store_of stim.old) n k }
{
    let mut at = rows.len();
    'rows: while at > 0 {
        at -= 1;
        let row = &rows[at];
        put_setting(stim, row.0, row.1.as_slice(), choice, phase);
    }
}
