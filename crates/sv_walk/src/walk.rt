// The items of modules and generate blocks, one after another (IEEE 1800-2017, 23.2.4 and 27). It is one cycle of six
// functions, since generate constructs hold items. All that needs no items stands outside: declarations, conditions and the
// beginnings of blocks. A conditional alone in a branch belongs to the construct round it and makes no block of its own
// (27.5).
ghost use Rattle.sv_hierarchy.specs.Scopes.{act, conditional, turn_walk, under, walk_all};
ghost use Rattle.sv_walk.specs.Items.{IsPlain, else_of, items_walk};
ghost use Rattle.sv_walk.specs.Walks.{Walks};

use crate::walker::{Open, Walker};
use fourvec::Four;
use items::Boxed;
use sv_levels::{Task, Turns, let_go};
use sv_outside::{Place, TextErr};
use sv_tree::{Expr, Gen, Item, Word};

impl<'a> Walker<'a> {
    // An item that holds no items.
    fn plain_item(&mut self, current: &mut Open<'a>, item: &'a Item) -> Result<(), TextErr>
        requires { IsPlain item.now }
        ensures { Walks (act item.now).item self.old current.old self.new current.new result }
    {
        match item {
            Item::Net(_, form, words) => self.add_nets(current, form.as_ref(), words.as_slice()),
            Item::Variable(form, words) => self.add_nets(current, Some(form), words.as_slice()),
            Item::Typedef(tree) => self.add_typedef(current, tree),
            Item::Param(tree) => self.add_params(current, tree),
            Item::Genvar(words) => self.add_genvars(current, words.as_slice()),
            Item::Assign(list) => self.add_assignments(current, list.as_slice()),
            Item::Always(block) => self.add_work(current, Task::Running(block)),
            Item::Inst(inst) => self.add_children(current, inst),
            Item::Generate(_) => Ok(()),
            Item::For(_, _, _, _, _, _, _) => Ok(()),
            Item::If(_, _, _, _) => Ok(()),
        }
    }

    /// An item.
    #[cycle(item)]
    pub(crate) fn item(&mut self, current: &mut Open<'a>, item: &'a Item) -> Result<(), TextErr>
        ensures { Walks (act item.now).item self.old current.old self.new current.new result }
    {
        match item {
            Item::Generate(items) => self.items(current, items.as_slice()),
            Item::For(place, header, variable, start, test, next, body) => {
                let opened = self.open_loop(
                    current,
                    *place,
                    *header,
                    variable,
                    start,
                    test,
                    next,
                    body.get(),
                )?;
                self.turns(current, *place, opened, variable, body.get())
            }
            Item::If(place, test, body, other) => {
                current.next_construct(*place)?;
                let number = current.constructs.len();
                self.conditional(current, test, body.get(), other, number)
            }
            plain => self.plain_item(current, plain),
        }
    }

    /// Items in order.
    #[cycle(item)]
    pub(crate) fn items(&mut self, current: &mut Open<'a>, items: &'a [Item]) -> Result<(), TextErr>
        ensures { Walks (items_walk items.now) self.old current.old self.new current.new result }
    {
        'items: for item in items {
            self.item(current, item)?;
        }
        Ok(())
    }

    // The turns of a loop at a place, one after another.
    #[cycle(item)]
    fn turns(
        &mut self,
        current: &Open<'a>,
        place: Place,
        opened: Turns,
        variable: &Word,
        body: &'a Gen,
    ) -> Result<(), TextErr>
        ensures { Walks (walk_all (turn_walk place opened.name variable.now.text (under body.now).body) opened.values) self.old current.now self.new current.now result }
    {
        'turns: for bits in opened.values.as_slice() {
            self.turn(current, place, opened.name.bytes(), variable, *bits, body)?;
        }
        Ok(())
    }

    // The turn of a loop of a name, at a place, in which its variable has these bits.
    #[cycle(item)]
    fn turn(
        &mut self,
        current: &Open<'a>,
        place: Place,
        name: &[u8],
        variable: &Word,
        bits: Four,
        body: &'a Gen,
    ) -> Result<(), TextErr>
        ensures { Walks (turn_walk place name.now variable.now.text (under body.now).body bits) self.old current.now self.new current.now result }
    {
        let mut block = self.begin_turn(current, place, name, variable, bits)?;
        match body {
            Gen::Block(_, _, items, _) => {
                let done = self.items(&mut block, items.as_slice());
                let_go(block);
                done
            }
            Gen::Single(_, item) => {
                let done = self.item(&mut block, item.get());
                let_go(block);
                done
            }
        }
    }

    // The branch that a condition chooses of the construct of a number.
    #[cycle(item)]
    fn conditional(
        &mut self,
        current: &mut Open<'a>,
        test: &Expr,
        body: &'a Gen,
        other: &'a Option<Boxed<Gen>>,
        number: usize,
    ) -> Result<(), TextErr>
        ensures { Walks (conditional test.now (under body.now) (else_of other.now) number) self.old current.old self.new current.new result }
    {
        if self.holds(current, test)? {
            return self.branch(current, body, number);
        }
        match other {
            Some(other) => self.branch(current, other.get(), number),
            None => Ok(()),
        }
    }

    // A branch of the construct of a number. A conditional alone in it belongs to the same construct (27.5).
    #[cycle(item)]
    fn branch(
        &mut self,
        current: &mut Open<'a>,
        body: &'a Gen,
        number: usize,
    ) -> Result<(), TextErr>
        ensures { Walks ((under body.now).branch number) self.old current.old self.new current.new result }
    {
        match body {
            Gen::Block(place, label, items, _) => {
                let mut block = self.block(current, label.as_ref(), *place, number)?;
                let done = self.items(&mut block, items.as_slice());
                let_go(block);
                done
            }
            Gen::Single(place, item) => match item.get() {
                Item::If(_, test, body, other) => {
                    self.conditional(current, test, body.get(), other, number)
                }
                other => {
                    let mut block = self.block(current, None, *place, number)?;
                    let done = self.item(&mut block, other);
                    let_go(block);
                    done
                }
            },
        }
    }
}
