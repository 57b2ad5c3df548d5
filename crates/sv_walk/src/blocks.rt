// Generate blocks are begun: branches of conditionals, and the turns of loops (IEEE 1800-2017, 27). A block is a level whose
// fronts are those of its place. The turns of a loop share one name, which is declared once and only where there are turns; the
// variable stands as the first of a turn's nets, so that it is seen as any name is. What begins a block is here, outside of the
// cycle of items.
ghost use Rattle.std.specs.Prelude.{◌≡◌, IfOk};
ghost use Rattle.std.specs.Option.{option_copied};
ghost use Rattle.sv_names.specs.Kinds.{entries_are};
ghost use Rattle.sv_loops.specs.Answers.{Answers};
ghost use Rattle.sv_hierarchy.specs.Scopes.{inner, under};
ghost use Rattle.sv_tree.specs.declared.design.Item.{Item as Tree};
ghost use Rattle.sv_tree.specs.declared.design.Item.TheVariants as it;
ghost use Rattle.sv_walk.specs.Items.{Begins, BeginsLoop, OpensLoop, declare_turns, opened_turn};
ghost use Rattle.sv_walk.specs.declared.walker.Walker.{Walker as Walking};
ghost use Rattle.sv_walk.specs.Walks.{Walks, state_of};

use crate::walker::{Open, Walker};
use fourvec::Four;
use items::Items;
use std::alloc::AllocError;
use sv_levels::{Turns, block_name, block_place, index_scope, turn_name};
use sv_names::Scope;
use sv_outside::{Place, TextErr};
use sv_tree::{Expr, Gen, Step, Word};

// The label of a body, and where it begins.
fn head_of(body: &Gen) -> (Option<&Word>, Place)
    ensures { (option_copied result.0 ≡ (under body.now).label) × (result.1 ≡ (under body.now).start) }
{
    match body {
        Gen::Block(place, label, _, _) => (label.as_ref(), *place),
        Gen::Single(place, _) => (None, *place),
    }
}

// The name of a loop is declared where there are turns.
fn declare_turns(
    current: &mut Open<'_>,
    place: Place,
    name: &[u8],
    values: &Items<Four>,
) -> Result<(), TextErr>
    ensures { (w : Walking) → Walks (declare_turns place name.now values.now) w current.old w current.new result }
{
    if values.is_empty() {
        Ok(())
    } else {
        current.declare_at(place, name)
    }
}

impl<'a> Walker<'a> {
    // A block of that name in a path is begun, in which these names stand first.
    fn begin(
        &mut self,
        current: &Open<'a>,
        part: &[u8],
        nets: Scope,
    ) -> Result<Open<'a>, AllocError>
        ensures { IfOk result (λ block. state_of self.new block ≡ inner part.now (entries_are nets) (state_of self.old current.now)) }
    {
        let block = self.levels.block(self.alloc, current.level, part, nets)?;
        let level = self.levels.len();
        self.levels.push(block)?;
        Open::bare(self.alloc, self.levels.key(), level)
    }

    /// A block with a label, or with the number of its construct, is declared and begun; or E13 (27.6).
    pub(crate) fn block(
        &mut self,
        current: &mut Open<'a>,
        label: Option<&Word>,
        place: Place,
        number: usize,
    ) -> Result<Open<'a>, TextErr>
        ensures { Begins (option_copied label.entry) place number self.old current.old self.new current.new result }
    {
        let name = block_name(self.alloc, label, number)?;
        current.declare_at(block_place(label, place), name.bytes())?;
        let nets = Scope::new(self.alloc, self.levels.key());
        let block = self.begin(current, name.bytes(), nets)?;
        Ok(block)
    }

    /// The turns of a loop, which is a construct more; its name is declared where there are turns. Or why it is refused, or E13.
    pub(crate) fn open_loop(
        &self,
        current: &mut Open<'a>,
        place: Place,
        header: bool,
        variable: &Word,
        start: &Expr,
        test: &Expr,
        next: &Step,
        body: &Gen,
    ) -> Result<Turns, TextErr>
        ensures { (item : Tree) → item ≡ it.For place header variable.now start.now test.now next.now body.now → OpensLoop item place variable.now body.now self.now current.old current.new result }
    {
        let values = self.loop_values(current, place, header, variable, start, test, next)?;
        current.next_construct(place)?;
        let (label, begin) = head_of(body);
        let name = block_name(self.alloc, label, current.constructs.len())?;
        declare_turns(current, block_place(label, begin), name.bytes(), &values)?;
        Ok(Turns { name, values })
    }

    /// The block of a turn of the loop at a place is begun, with the variable of these bits; or E20 (27.4).
    pub(crate) fn begin_turn(
        &mut self,
        current: &Open<'a>,
        place: Place,
        name: &[u8],
        variable: &Word,
        bits: Four,
    ) -> Result<Open<'a>, TextErr>
        ensures { Answers (λ st block. st ≡ state_of self.new block) (opened_turn place name.now variable.now.text bits (state_of self.old current.now)) result }
    {
        self.tally = self.tally.with_turn(place)?;
        let part = turn_name(self.alloc, name, &bits)?;
        let nets = index_scope(self.alloc, self.levels.key(), variable, bits)?;
        let block = self.begin(current, part.bytes(), nets)?;
        Ok(block)
    }
}
