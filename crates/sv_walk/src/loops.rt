// The turns of a generate loop (IEEE 1800-2017, 27.4).
ghost use Rattle.sv_meaning.specs.Deeds.{fixed_truth};
ghost use Rattle.sv_meaning.specs.Values.{mean};
ghost use Rattle.sv_loops.specs.Answers.{Gives};
ghost use Rattle.sv_hierarchy.specs.Scopes.{seen};
ghost use Rattle.sv_walk.specs.Looping.{loop_judged};
ghost use Rattle.sv_walk.specs.Walks.{state_of};

use crate::walker::{Open, Walker};
use fourvec::Four;
use items::Items;
use sv_levels::{is_loop_variable, let_go};
use sv_loops::{condition, turns};
use sv_outside::{Place, TextErr, refusals};
use sv_tree::{Expr, Step, Word};
use sv_typing::refusal;

impl<'a> Walker<'a> {
    /// The values of the variable in all turns of a loop. E12 where the variable is not declared in the header and is none of
    /// generate loops; or why the loop is refused.
    pub(crate) fn loop_values(
        &self,
        current: &Open<'a>,
        place: Place,
        header: bool,
        variable: &Word,
        start: &Expr,
        test: &Expr,
        next: &Step,
    ) -> Result<Items<Four>, TextErr>
        ensures { Gives (loop_judged place header variable.now start.now test.now next.now (state_of self.now current.now)) result }
    {
        let at = self.here(current);
        let mut names = self.levels.seen(self.alloc, at)?;
        if is_loop_variable(&names, header, variable) {
            let values = turns(self.alloc, place, &mut names, variable, start, test, next);
            let_go(names);
            values
        } else {
            let_go(names);
            Err(TextErr::No(refusal(refusals::UNKNOWN_NAME, variable.place)))
        }
    }

    /// Whether the condition of a generate conditional holds (27.5), or why it is refused.
    pub(crate) fn holds(&self, current: &Open<'a>, test: &Expr) -> Result<bool, TextErr>
        ensures { Gives (fixed_truth (mean (seen (state_of self.now current.now)) test.now)) result }
    {
        let at = self.here(current);
        let names = self.levels.seen(self.alloc, at)?;
        let held = condition(self.alloc, test, &names);
        let_go(names);
        held
    }
}
