// Self tests: the proof of goals whose texts the tool makes itself.
ghost use Rattle.std.specs.Prelude.{◌≡◌, ◌≤◌, None, IfOk, IfErr};
ghost use Rattle.svtv_commands.specs.Done.{SelfTests};
ghost use Rattle.svtv_commands.specs.Judged.{IsJudgement, StopsTest};
ghost use Rattle.svtv_selftest.specs.Texts as test;

use crate::judging::{Judgement, judge};
use std::alloc::Global;
use sv_outside::Name;
use svtv_files::Stop;
use svtv_report::Verdict;
use svtv_selftest::{TestFiles, line_text};

// What is decided of the goals of a self test.
fn judged(alloc: Global, count: u64) -> Result<Judgement, Stop>
    requires low { 1 ≤ count }
    requires high { count ≤ test.most }
    ensures judges { IfOk result (IsJudgement (test.told count) test.design_name test.table_name test.goals_name None None) }
    ensures stop { IfErr result (StopsTest count) }
{
    let mut files = TestFiles { count };
    let design = Name::new(alloc, b"st.sv")?;
    let table = Name::new(alloc, b"st.csv")?;
    let goals = Name::new(alloc, b"st.txt")?;
    judge(alloc, &mut files, &design, &table, &goals, None, None)
}

// What was decided, one verdict for each goal in order.
fn verdicts_of(judgement: &Judgement) -> &[Verdict]
    ensures { result.now ≡ judgement.now.decisions.verdicts }
{
    judgement.decisions.verdicts.as_slice()
}

/// The line of the self test with so many registers, or why there is none.
pub fn selftest(alloc: Global, count: u64) -> Result<Vec<u8>, Stop>
    requires low { 1 ≤ count }
    requires high { count ≤ test.most }
    ensures tests { IfOk result (λ text. SelfTests count text.items) }
    ensures stop { IfErr result (StopsTest count) }
{
    let judgement = match judged(alloc, count) {
        Ok(judgement) => judgement,
        Err(stop) => return Err(stop),
    };
    match line_text(alloc, count, verdicts_of(&judgement)) {
        Ok(text) => Ok(text),
        Err(_) => Err(Stop::Memory),
    }
}
