// Declarations of constants, types, nets and variables (IEEE 1800-2017, 6.5, 6.18, 6.19). A type or a value is judged before
// its name is declared, so that a declaration never sees itself. Nets and constants go into different lists of the level, but
// their names into one set, by which a name that is taken is refused. Bits are counted as wires are added, so that a design
// that is too large is refused at the wire.
ghost use Rattle.std.specs.Prelude.{◌≡◌, ◌+◌, false, IfOk, OnOk};
ghost use Rattle.std.specs.Option.{option_copied};
ghost use Rattle.sv_names.specs.Kinds.{IsSound, WhatIsSound, layout_is, what_is};
ghost use Rattle.sv_meaning.specs.Layouts.{width};
ghost use Rattle.sv_hierarchy.specs.Scopes.{add_constant, add_genvar, add_typedef, add_wire, formed, walk_all, with_form, with_form_or_bit, with_wire};
ghost use Rattle.sv_levels.specs.declared.tally.Tally.{Tally as Counted};
ghost use Rattle.sv_walk.specs.declared.walker.Open.{Open as Opened};
ghost use Rattle.sv_walk.specs.declared.walker.Walker.{Walker as Walking};
ghost use Rattle.sv_walk.specs.Walks.{Finds, Walks, state_of};

use crate::walker::{Open, Walker};
use std::alloc::{AllocError, Global};
use sv_levels::{Levels, Wires, let_go};
use sv_names::{Layout, What, scalar};
use sv_outside::{Name, Place, Signal, TextErr};
use sv_tree::{TypeTree, Typedef, Word};
use sv_types::{Formed, copy, form_of};

// A wire more in the scope of a number. It is given only the parts that it changes, and the caller counts its bits.
fn put_wire(
    alloc: Global,
    levels: &mut Levels,
    wires: &mut Wires,
    level: usize,
    input: bool,
    layout: &Layout,
    word: &Word,
) -> Result<(), AllocError>
    requires { IsSound layout.now }
    ensures { OnOk result ((w : Walking) (o : Opened) (t : Counted) → o.level ≡ level → t.bits ≡ w.tally.bits + width (layout_is layout.now) → t.turns ≡ w.tally.turns → with_wire input (layout_is layout.now) word.now.text (state_of (record w { levels = levels.old; wires = wires.old }) o) ≡ state_of (record w { levels = levels.new; wires = wires.new; tally = t }) o) }
{
    let path = levels.path(alloc, level, word.text.bytes())?;
    let name = word.text.copy()?;
    let layout_of_wire = copy(alloc, layout)?;
    let what = What::Wire {
        number: wires.len(),
        layout: layout_of_wire,
    };
    levels.add_net(level, name, what)?;
    wires.push(Signal {
        path,
        width: layout.width,
        input,
    })
}

impl<'a> Walker<'a> {
    /// A constant, a type or a genvar.
    pub(crate) fn add_constant(
        &mut self,
        current: &mut Open<'a>,
        place: Place,
        name: &Name,
        what: What,
    ) -> Result<(), TextErr>
        requires { WhatIsSound what }
        ensures { Walks (add_constant (record { text = name.now; place = place }, what_is what)) self.old current.old self.new current.new result }
    {
        current.declare_at(place, name.bytes())?;
        let text = name.copy()?;
        self.levels.add_const(current.level, text, what)?;
        Ok(())
    }

    /// The layout of a type, whose enumerators become names.
    pub(crate) fn formed(
        &mut self,
        current: &mut Open<'a>,
        tree: &TypeTree,
    ) -> Result<Layout, TextErr>
        ensures is { Finds (λ x layout. x ≡ layout_is layout) (formed tree.now) self.old current.old self.new current.new result }
        ensures sound { IfOk result (λ layout. IsSound layout) }
    {
        let at = self.here(current);
        let mut names = self.levels.seen(self.alloc, at)?;
        let judged = form_of(self.alloc, tree, &mut names);
        let_go(names);
        let found = judged?;
        let Formed { layout, declared } = found;
        'list: for label in declared.as_slice() {
            self.add_constant(current, label.place, &label.name, What::Number(label.value))?;
        }
        Ok(layout)
    }

    /// A type with a name.
    pub fn add_typedef(&mut self, current: &mut Open<'a>, tree: &Typedef) -> Result<(), TextErr>
        ensures { Walks (add_typedef tree.now) self.old current.old self.new current.new result }
    {
        let layout = self.formed(current, &tree.form)?;
        self.add_constant(
            current,
            tree.name.place,
            &tree.name.text,
            What::Kind(layout),
        )
    }

    /// A net or variable: E13 where its name is taken, E22 where there are too many bits.
    pub(crate) fn add_wire(
        &mut self,
        current: &mut Open<'a>,
        input: bool,
        layout: &Layout,
        word: &Word,
    ) -> Result<(), TextErr>
        requires { IsSound layout.now }
        ensures { Walks (add_wire input (layout_is layout.now) word.now) self.old current.old self.new current.new result }
    {
        current.declare_at(word.place, word.text.bytes())?;
        let tally = self.tally.with_bits(word.place, layout.width as u64)?;
        put_wire(
            self.alloc,
            &mut self.levels,
            &mut self.wires,
            current.level,
            input,
            layout,
            word,
        )?;
        self.tally = tally;
        Ok(())
    }

    // Nets or variables of one layout.
    fn add_wires(
        &mut self,
        current: &mut Open<'a>,
        layout: &Layout,
        words: &[Word],
    ) -> Result<(), TextErr>
        requires { IsSound layout.now }
        ensures { Walks (walk_all (add_wire false (layout_is layout.now)) words.now) self.old current.old self.new current.new result }
    {
        'words: for word in words {
            self.add_wire(current, false, layout, word)?;
        }
        Ok(())
    }

    /// Nets or variables of a type, or nets of one bit.
    pub(crate) fn add_nets(
        &mut self,
        current: &mut Open<'a>,
        tree: Option<&TypeTree>,
        words: &[Word],
    ) -> Result<(), TextErr>
        ensures { Walks (with_form_or_bit (option_copied tree.entry) (λ x. walk_all (add_wire false x) words.now)) self.old current.old self.new current.new result }
    {
        match tree {
            Some(tree) => {
                let layout = self.formed(current, tree)?;
                let added = self.add_wires(current, &layout, words);
                let_go(layout);
                added
            }
            None => self.add_wires(current, &scalar(false), words),
        }
    }

    /// Variables of generate loops.
    pub(crate) fn add_genvars(
        &mut self,
        current: &mut Open<'a>,
        words: &[Word],
    ) -> Result<(), TextErr>
        ensures { Walks (walk_all add_genvar words.now) self.old current.old self.new current.new result }
    {
        'words: for word in words {
            self.add_constant(current, word.place, &word.text, What::Genvar)?;
        }
        Ok(())
    }
}
