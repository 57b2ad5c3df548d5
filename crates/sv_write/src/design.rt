// Instances and items of modules are written (A.1.4, A.4). Each part is put behind what is written already, in one list of
// kinds and texts, so that nothing is copied between levels. Items hold items through generate constructs, so `item`, `items`,
// `body` and `maybe_else` are one cycle, and all that holds no items stands outside of it.
ghost use Rattle.sv_write.specs.Adds.{Adds};
ghost use Rattle.sv_write.specs.Design as spec;
ghost use Rattle.sv_write.specs.Exprs as exprs_spec;
ghost use Rattle.sv_write.specs.Forms as forms_spec;
ghost use Rattle.sv_write.specs.Stmts as stmts_spec;
ghost use Rattle.sv_write.specs.Writing as writing;

use crate::exprs::{exprs, in_parens};
use crate::forms::{form, given, names_end, param, typedef};
use crate::lexeme::Writer;
use crate::part::{Part, commas, maybe};
use crate::stmts::{begin, block, end, lvalue, turns};
use items::Boxed;
use sv_tree::{
    AssignPair, Expr, Gen, Inst, Item, NamedPin, NetWord, One, Pin, Pins, Step, TypeTree, Word,
};

impl Part for AssignPair {
    ghost text = { spec.write_pair };

    fn put(&self, out: &mut Writer) {
        lvalue(out, &self.target);
        given(out, &self.value)
    }
}

// ---- instances

fn pin(out: &mut Writer, x: &Pin)
    ensures { Adds (spec.write_pin x.now) out.old out.new }
{
    match x {
        Pin::Same => {}
        Pin::Open => {
            out.mark(b"(");
            out.mark(b")")
        }
        Pin::Given(value) => in_parens(out, value),
    }
}

impl Part for NamedPin {
    ghost text = { spec.write_named };

    fn put(&self, out: &mut Writer) {
        out.mark(b".");
        out.name(&self.name);
        pin(out, &self.pin)
    }
}

impl Part for Pins {
    ghost text = { spec.write_pins };

    fn put(&self, out: &mut Writer) {
        match self {
            Pins::Named(all) => commas(out, all.as_slice()),
            Pins::Ordered(all) => exprs(out, all.as_slice()),
        }
    }
}

impl Part for One {
    ghost text = { spec.write_one };

    fn put(&self, out: &mut Writer) {
        out.name(&self.name);
        out.mark(b"(");
        maybe(out, &self.pins);
        out.mark(b")")
    }
}

fn overridden(out: &mut Writer, option: &Option<Option<Pins>>)
    ensures { Adds (writing.maybe spec.write_override option.now) out.old out.new }
{
    match option {
        Some(given) => {
            out.mark(b"#");
            out.mark(b"(");
            maybe(out, given);
            out.mark(b")")
        }
        None => {}
    }
}

fn inst(out: &mut Writer, x: &Inst)
    ensures { Adds (spec.write_inst x.now) out.old out.new }
{
    out.name(&x.of_module);
    overridden(out, &x.params);
    commas(out, x.list.as_slice());
    out.mark(b";")
}

// ---- items

fn net(out: &mut Writer, word: &NetWord, of: &Option<TypeTree>, all: &[Word])
    ensures { Adds (spec.net word.now of.now all.now) out.old out.new }
{
    word.put(out);
    maybe(out, of);
    names_end(out, all)
}

fn variable(out: &mut Writer, of: &TypeTree, all: &[Word])
    ensures { Adds (spec.variable of.now all.now) out.old out.new }
{
    form(out, of);
    names_end(out, all)
}

fn genvars(out: &mut Writer, all: &[Word])
    ensures { Adds (spec.genvars all.now) out.old out.new }
{
    out.key(b"genvar");
    names_end(out, all)
}

fn assigns(out: &mut Writer, all: &[AssignPair])
    ensures { Adds (spec.assigns all.now) out.old out.new }
{
    out.key(b"assign");
    commas(out, all);
    out.mark(b";")
}

fn for_word(out: &mut Writer, header: bool)
    ensures { Adds (spec.for_word header) out.old out.new }
{
    out.key(b"for");
    out.mark(b"(");
    if header {
        out.key(b"genvar")
    }
}

fn if_head(out: &mut Writer, test: &Expr)
    ensures { Adds (spec.if_head test.now) out.old out.new }
{
    out.key(b"if");
    in_parens(out, test)
}

/// Writes items, one behind the other.
#[cycle(item)]
pub fn items(out: &mut Writer, all: &[Item])
    ensures { Adds (writing.each spec.write_item all.now) out.old out.new }
{
    'parts: for part in all {
        item(out, part);
    }
}

#[cycle(item)]
fn maybe_else(out: &mut Writer, given: &Option<Boxed<Gen>>)
    ensures { Adds (writing.maybe spec.write_else_part given.now) out.old out.new }
{
    match given {
        Some(part) => {
            out.key(b"else");
            body(out, part.get())
        }
        None => {}
    }
}

#[cycle(item)]
fn body(out: &mut Writer, x: &Gen)
    ensures { Adds (spec.write_gen x.now) out.old out.new }
{
    match x {
        Gen::Block(_, first, all, last) => {
            begin(out, first);
            items(out, all.as_slice());
            end(out, b"end", last)
        }
        Gen::Single(_, inner) => item(out, inner.get()),
    }
}

#[cycle(item)]
fn item(out: &mut Writer, x: &Item)
    ensures { Adds (spec.write_item x.now) out.old out.new }
{
    match x {
        Item::Net(word, of, all) => net(out, word, of, all.as_slice()),
        Item::Variable(of, all) => variable(out, of, all.as_slice()),
        Item::Typedef(inner) => typedef(out, inner),
        Item::Param(inner) => param(out, inner),
        Item::Genvar(all) => genvars(out, all.as_slice()),
        Item::Assign(all) => assigns(out, all.as_slice()),
        Item::Always(inner) => block(out, inner),
        Item::Inst(inner) => inst(out, inner),
        Item::For(_, header, of, start, test, next, inner) => {
            for_word(out, *header);
            turns(out, of, start, test, next);
            body(out, inner.get())
        }
        Item::If(_, test, inner, other) => {
            if_head(out, test);
            body(out, inner.get());
            maybe_else(out, other)
        }
        Item::Generate(all) => {
            out.key(b"generate");
            items(out, all.as_slice());
            out.key(b"endgenerate")
        }
    }
}
