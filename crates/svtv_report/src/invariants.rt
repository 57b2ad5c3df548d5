// The report of invariants over any number of periods, as that of goals: a line or more for each, put behind one another in one
// vector. A failing step shows the signals of the samples before the period too.
ghost use Rattle.std.specs.Prelude.{◌≡◌, ◌++◌, IfOk, OnOk, length};
ghost use Rattle.svtv_report.specs.Invariants as t;
ghost use Rattle.svtv_report.specs.Invariants.{invariant_text};
ghost use Rattle.svtv_report.specs.Shown.{names_of, sample_texts, var_texts};

use crate::held::Held;
use crate::verdicts::{push_samples, push_undecided, push_vars};
use fourvec::Four;
use items::Items;
use std::alloc::{AllocError, Global};
use sv_outside::Name;
use svtv_table::{Sample, VarDecl};

/// The variables of the reset's table and of the period's, and the samples, which both have.
#[derive(Clone, Copy)]
pub struct Columns<'a> {
    pub resets: &'a [VarDecl],
    pub periods: &'a [VarDecl],
    pub samples: &'a [Sample],
}

// What stands behind the name where the reset breaks the claims.
fn push_base_failure(
    text: &mut Vec<u8>,
    vars: &[VarDecl],
    samples: &[Sample],
    choice: &[Four],
    shown: &[Four],
) -> Result<(), AllocError>
    ensures { OnOk result (text.new.items ≡ text.old.items ++ t.base_failure (var_texts vars.now) (sample_texts samples.now) choice.now shown.now) }
{
    text.extend_from_slice(b": base fails\n")?;
    push_vars(text, vars, choice)?;
    push_samples(text, b"  sample ", samples, shown)
}

// What stands behind the name where a period breaks them.
fn push_step_failure(
    text: &mut Vec<u8>,
    vars: &[VarDecl],
    samples: &[Sample],
    choice: &[Four],
    before: &[Four],
    shown: &[Four],
) -> Result<(), AllocError>
    ensures { OnOk result (text.new.items ≡ text.old.items ++ t.step_failure (var_texts vars.now) (sample_texts samples.now) choice.now before.now shown.now) }
{
    text.extend_from_slice(b": step fails\n")?;
    push_vars(text, vars, choice)?;
    push_samples(text, b"  before ", samples, before)?;
    push_samples(text, b"  sample ", samples, shown)
}

// The lines of one invariant.
fn push_invariant(
    text: &mut Vec<u8>,
    columns: Columns<'_>,
    name: &Name,
    verdict: &Held,
    before: &[Four],
    shown: &[Four],
) -> Result<(), AllocError>
    ensures { OnOk result (text.new.items ≡ text.old.items ++ invariant_text (names_of columns.entry) name.now verdict.now before.now shown.now) }
{
    text.extend_from_slice(name.bytes())?;
    match verdict {
        Held::Invariant => text.extend_from_slice(b": invariant\n"),
        Held::BaseFails(choice) => {
            push_base_failure(
                text,
                columns.resets,
                columns.samples,
                choice.as_slice(),
                shown,
            )
        }
        Held::StepFails(choice) => push_step_failure(
            text,
            columns.periods,
            columns.samples,
            choice.as_slice(),
            before,
            shown,
        ),
        Held::Undecided(steps) => push_undecided(text, *steps),
    }
}

/// The report of invariants, in order: of each its verdict; where it fails the choice, the signals before the period and the samples at
/// the end. The lists have equal lengths.
pub fn invariants_text(
    alloc: Global,
    columns: Columns<'_>,
    names: &[Name],
    verdicts: &[Held],
    before: &[Items<Four>],
    shown: &[Items<Four>],
) -> Result<Vec<u8>, AllocError>
    requires verdicts { length verdicts.now ≡ length names.now }
    requires before { length before.now ≡ length names.now }
    requires shown { length shown.now ≡ length names.now }
    ensures { IfOk result (λ text. text.items ≡ t.invariants_text (names_of columns.entry) names.now verdicts.now before.now shown.now) }
{
    let mut text = Vec::new(alloc);
    'invariants: for at in 0..names.len() {
        push_invariant(
            &mut text,
            columns,
            &names[at],
            &verdicts[at],
            before[at].as_slice(),
            shown[at].as_slice(),
        )?;
    }
    Ok(text)
}
