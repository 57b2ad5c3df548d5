// What is sampled in each phase.
ghost use Rattle.std.specs.Prelude.{◌≡◌, ◌<◌, ◌+◌, ◌^◌, ◌∷◌, [], ◌++◌, map, OnOk, IfErr};
ghost use Rattle.svtv_table.specs.Binding.{cell_sample, name_faults, sample_faults, sample_name, taken_faults};
ghost use Rattle.svtv_table.specs.Faults.{Stops, at_each};
ghost use Rattle.svtv_table.specs.Following.{AreNamed};
ghost use Rattle.svtv_table.specs.Indexing.{listed};
ghost use Rattle.svtv_table.specs.Names.{is_among};

use crate::bound::Sample;
use crate::faults::refused;
use crate::names::{Target, number_of};
use crate::variables::Variables;
use items::Items;
use name_index::NameIndex;
use sv_outside::{Name, TextErr, refusals};
use table_cells::Cell;

/// Samples, with an index of their names.
#[derive(Drop)]
pub struct Samples {
    pub list: Items<Sample>,
    pub taken: NameIndex,
}

fn is_taken(samples: &Samples, name: &Name) -> bool
    requires { AreNamed samples.now }
    ensures { result ≡ is_among (map sample_name samples.now.list) name.now }
{
    samples.taken.number(name.bytes()).is_some()
}

#[tactic(auto, unfolding(crate::specs::Binding::taken_faults, crate::specs::Faults::Stops))]
fn put_sample(
    samples: &mut Samples,
    variables: &Variables<'_>,
    target: &Target,
    phase: usize,
    name: &Name,
) -> Result<(), TextErr>
    requires named { AreNamed samples.old }
    requires room { phase + 3 < 2 ^ 64 }
    ensures list { OnOk result (samples.new.list ≡ samples.old.list ++ record { name = name.now; wire = target.now.wire; phase = phase; width = target.now.width } ∷ []) }
    ensures named { OnOk result (AreNamed samples.new) }
    ensures fine { OnOk result (taken_faults (listed variables.now) (map sample_name samples.old.list) target.now.line phase name.now ≡ []) }
    ensures err { IfErr result (Stops (taken_faults (listed variables.now) (map sample_name samples.old.list) target.now.line phase name.now)) }
{
    if is_taken(samples, name) || number_of(variables, name).is_some() {
        return Err(refused(refusals::SAMPLE_TWICE, target.line, phase + 3));
    }
    samples.taken.note(name.bytes(), samples.list.len())?;
    let name = name.copy()?;
    samples.list.push(Sample {
        name,
        wire: target.wire,
        phase,
        width: target.width,
    })?;
    Ok(())
}

#[tactic(auto, unfolding(crate::specs::Binding::name_faults))]
fn sample_cell(
    samples: &mut Samples,
    variables: &Variables<'_>,
    target: &Target,
    phase: usize,
    cell: &Cell,
) -> Result<(), TextErr>
    requires named { AreNamed samples.old }
    requires room { phase + 3 < 2 ^ 64 }
    ensures list { OnOk result (samples.new.list ≡ samples.old.list ++ cell_sample target.now.wire target.now.width phase cell.now) }
    ensures named { OnOk result (AreNamed samples.new) }
    ensures fine { OnOk result (name_faults (listed variables.now) (map sample_name samples.old.list) target.now.line phase cell.now ≡ []) }
    ensures err { IfErr result (Stops (name_faults (listed variables.now) (map sample_name samples.old.list) target.now.line phase cell.now)) }
{
    match cell {
        Cell::Named(name) => put_sample(samples, variables, target, phase, name),
        _ => Ok(()),
    }
}

/// Samples as the cells of an `out` row say.
pub fn sample_cells(
    samples: &mut Samples,
    variables: &Variables<'_>,
    target: &Target,
    cells: &[Cell],
) -> Result<(), TextErr>
    requires { AreNamed samples.old }
    ensures list { OnOk result (samples.new.list ≡ samples.old.list ++ at_each (cell_sample target.now.wire target.now.width) 0 cells.now) }
    ensures named { OnOk result (AreNamed samples.new) }
    ensures fine { OnOk result (at_each (sample_faults (listed variables.now) (map sample_name samples.old.list) cells.now target.now.line) 0 cells.now ≡ []) }
    ensures err { IfErr result (Stops (at_each (sample_faults (listed variables.now) (map sample_name samples.old.list) cells.now target.now.line) 0 cells.now)) }
{
    for (phase, cell) in cells.iter().enumerate() {
        sample_cell(samples, variables, target, phase, cell)?;
    }
    Ok(())
}
