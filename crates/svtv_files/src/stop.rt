// Why nothing is printed.
ghost use Rattle.std.specs.Prelude.{◌≡◌, ◌≤◌, ℕ, List, IfOk, OnOk, IfErr};
ghost use Rattle.sv_outside.specs.Outside.{Rose};
ghost use Rattle.sv_preproc.specs.Laws.{Possible};
ghost use Rattle.sv_outside.specs.declared.refusal.TextErr.TheVariants.{No};
ghost use Rattle.svtv_files.specs.Refusals.{at_first};
ghost use Rattle.svtv_files.specs.Stopping.{Counts, IfUnread, IsOf, Stops, StopsAt};
ghost use Rattle.svtv_files.specs.declared.stop.Stop.TheVariants.{Memory};

use std::alloc::{AllocError, Global};
use sv_outside::{FILE_START, FileErr, Files, Name, Place, Refusal, TextErr, refusals};

/// Why the work stops: a file of that name is refused, or was not read, or there was no memory.
#[derive(Drop)]
pub enum Stop {
    Refused(Name, Refusal),
    Unread(Name, Place),
    Memory,
}

impl From<AllocError> for Stop {
    ghost from_gives = { λ _ e. e ≡ Memory };

    fn from(_: AllocError) -> Self {
        Stop::Memory
    }
}

// E4 of the file of that name.
fn too_long(name: &Name) -> Stop
    ensures { IsOf name.now (No (record { number = 4; place = at_first; count = 0 })) result }
{
    refused_whole(name, refusals::TOO_LONG, 0)
}

// The file of that name was not read.
fn unread(name: &Name) -> Stop
    ensures { Stops (λ _ _. ⊥) (λ file place. (file ≡ name.now) × (place ≡ at_first)) result }
{
    match name.copy() {
        Ok(file) => Stop::Unread(file, FILE_START),
        Err(_) => Stop::Memory,
    }
}

/// A text of the file of that name is refused.
pub fn refused(name: &Name, error: TextErr) -> Stop
    ensures { IsOf name.now error result }
{
    let TextErr::No(refusal) = error else {
        return Stop::Memory;
    };
    match name.copy() {
        Ok(file) => Stop::Refused(file, refusal),
        Err(_) => Stop::Memory,
    }
}

/// The file of that name is refused at its start, by a number and with a count.
pub fn refused_whole(name: &Name, number: u8, count: u64) -> Stop
    ensures { IsOf name.now (No (record { number = number; place = at_first; count = count })) result }
{
    let place = FILE_START;
    refused(
        name,
        TextErr::No(Refusal {
            number,
            place,
            count,
        }),
    )
}

/// The whole file of that name, by one read.
#[tactic(auto, using(sv_outside::proofs::Counts::read_rose, sv_outside::proofs::Counts::read_once, sv_outside::proofs::Counts::read_kept, crate::proofs::Counting::unread_counts, crate::proofs::Counting::long_counts))]
pub fn read<F: Files>(alloc: Global, files: &mut F, name: &Name) -> Result<Vec<u8>, Stop>
    ensures stands { IfOk result (λ bytes. Possible (F.contents files.old) name.now bytes.items) }
    ensures stop { IfErr result (StopsAt (F.contents files.old) name.now) }
    ensures rose { IfErr result (IfUnread (Rose (F.faults files.old) (F.faults files.new))) }
    ensures kept { OnOk result (F.faults files.new ≡ F.faults files.old) }
    ensures counts { IfErr result (λ stop. Counts stop (F.faults files.old) (F.faults files.new)) }
    ensures unchanged { (other : List ℕ) → F.contents files.new other ≡ F.contents files.old other }
    ensures counts_up { F.faults files.old ≤ F.faults files.new }
{
    match files.read(alloc, name) {
        Ok(bytes) => Ok(bytes),
        Err(FileErr::Failed) => Err(unread(name)),
        Err(FileErr::Long) => Err(too_long(name)),
        Err(FileErr::Memory) => Err(Stop::Memory),
    }
}
