// The report of verdicts, and the text of samples. A goal has a line, and where it failed one for each variable of the choice
// and each sample of its run, so that the failure can be seen. The texts are put behind one another in one vector, and only
// want of memory can end it. The samples of a simulation are the same lines without what stands before them there.
ghost use Rattle.std.specs.Prelude.{◌≡◌, ◌∷◌, ◌++◌, [], IfOk, OnOk, codes, decimal, length, map};
ghost use Rattle.svtv_report.specs.Seen.{verdict_is};
ghost use Rattle.svtv_report.specs.Texts as t;
ghost use Rattle.svtv_report.specs.Texts.{line_feed, value_lines, verdict_text};
ghost use Rattle.svtv_report.specs.Shown.{sample_texts, var_texts};

use crate::value::push_line;
use fourvec::Four;
use items::Items;
use itoa::Buffer;
use std::alloc::{AllocError, Global};
use sv_outside::Name;
use svtv_table::{Sample, VarDecl};

/// What is said of a goal: each claim holds in every run under every choice that meets the hypotheses, and some choice does; no
/// choice meets them; this choice meets them and some claim fails in its least run; or a question was left behind so many steps.
pub enum Verdict {
    Proved,
    Vacuous,
    Failed(Items<Four>),
    Undecided(u64),
}

impl Drop for Verdict {
    fn drop(self) {
        match self {
            Verdict::Proved => {}
            Verdict::Vacuous => {}
            Verdict::Failed(_) => {}
            Verdict::Undecided(_) => {}
        }
    }
}

/// A line for each variable that has a value.
pub(crate) fn push_vars(
    text: &mut Vec<u8>,
    vars: &[VarDecl],
    values: &[Four],
) -> Result<(), AllocError>
    ensures { OnOk result (text.new.items ≡ text.old.items ++ value_lines (codes "  var ") (var_texts vars.now) values.now) }
{
    'vars: for (var, value) in vars.iter().zip(values) {
        push_line(text, b"  var ", &var.name, value)?;
    }
    Ok(())
}

/// A line for each sample that has a value, after so much.
pub(crate) fn push_samples(
    text: &mut Vec<u8>,
    before: &[u8],
    samples: &[Sample],
    values: &[Four],
) -> Result<(), AllocError>
    ensures { OnOk result (text.new.items ≡ text.old.items ++ value_lines before.now (sample_texts samples.now) values.now) }
{
    'samples: for (sample, value) in samples.iter().zip(values) {
        push_line(text, before, &sample.name, value)?;
    }
    Ok(())
}

/// The end of a line of a goal that was left behind so many steps.
pub(crate) fn push_undecided(text: &mut Vec<u8>, steps: u64) -> Result<(), AllocError>
    ensures { OnOk result (text.new.items ≡ text.old.items ++ (codes ": undecided after " ++ (decimal steps ++ line_feed))) }
{
    let mut buffer = Buffer::new();
    text.extend_from_slice(b": undecided after ")?;
    text.extend_from_slice(buffer.format(steps).as_bytes())?;
    text.push(b'\n')?;
    Ok(())
}

// The lines of one goal.
fn push_verdict(
    text: &mut Vec<u8>,
    vars: &[VarDecl],
    samples: &[Sample],
    name: &Name,
    verdict: &Verdict,
    shown: &[Four],
) -> Result<(), AllocError>
    ensures { OnOk result (text.new.items ≡ text.old.items ++ verdict_text (var_texts vars.now) (sample_texts samples.now) name.now (verdict_is verdict.now) shown.now) }
{
    text.extend_from_slice(name.bytes())?;
    match verdict {
        Verdict::Proved => text.extend_from_slice(b": proved\n"),
        Verdict::Vacuous => text.extend_from_slice(b": vacuous\n"),
        Verdict::Failed(choice) => {
            text.extend_from_slice(b": failed\n")?;
            push_vars(text, vars, choice.as_slice())?;
            push_samples(text, b"  sample ", samples, shown)
        }
        Verdict::Undecided(steps) => push_undecided(text, *steps),
    }
}

/// The report of verdicts, a line or more for each goal in order; `shown` has the samples of the least run for a goal that failed.
/// The three lists have equal lengths.
pub fn report(
    alloc: Global,
    names: &[Name],
    verdicts: &[Verdict],
    vars: &[VarDecl],
    samples: &[Sample],
    shown: &[Items<Four>],
) -> Result<Vec<u8>, AllocError>
    requires verdicts { length verdicts.now ≡ length names.now }
    requires shown { length shown.now ≡ length names.now }
    ensures { IfOk result (λ text. text.items ≡ t.report (var_texts vars.now) (sample_texts samples.now) names.now (map verdict_is verdicts.now) shown.now) }
{
    let mut text = Vec::new(alloc);
    'goals: for at in 0..names.len() {
        push_verdict(
            &mut text,
            vars,
            samples,
            &names[at],
            &verdicts[at],
            shown[at].as_slice(),
        )?;
    }
    Ok(text)
}

/// The report of the verdict of one goal.
#[tactic(auto, using(crate::proofs::Lines::one_goal))]
pub fn goal_report(
    alloc: Global,
    name: &Name,
    verdict: &Verdict,
    vars: &[VarDecl],
    samples: &[Sample],
    shown: &[Four],
) -> Result<Vec<u8>, AllocError>
    ensures { IfOk result (λ text. text.items ≡ t.report (var_texts vars.now) (sample_texts samples.now) (name.now ∷ []) (verdict_is verdict.now ∷ []) (shown.now ∷ [])) }
{
    let mut text = Vec::new(alloc);
    push_verdict(&mut text, vars, samples, name, verdict, shown)?;
    Ok(text)
}

/// A line for each sample, in order.
pub fn samples_text(
    alloc: Global,
    samples: &[Sample],
    values: &[Four],
) -> Result<Vec<u8>, AllocError>
    ensures { IfOk result (λ text. text.items ≡ value_lines [] (sample_texts samples.now) values.now) }
{
    let mut text = Vec::new(alloc);
    push_samples(&mut text, b"", samples, values)?;
    Ok(text)
}
