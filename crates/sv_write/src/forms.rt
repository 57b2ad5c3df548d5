// Types, parameters and ports are written (A.2, A.1.3). A part that may be missing or repeated is a `Part`, so that options and
// lists are written by the same few calls. Types hold types through the members of structures: those four functions are a
// cycle, and the words, ranges and enumerators stand outside of it.
ghost use Rattle.sv_write.specs.Adds.{Adds};
ghost use Rattle.sv_write.specs.Forms as spec;
ghost use Rattle.sv_write.specs.Writing as writing;

use crate::exprs::{expr, expr_and_mark, sign_word};
use crate::lexeme::Writer;
use crate::part::{Part, commas, each, maybe};
use sv_tree::{
    BitsWord, EnumLabel, Expr, Member, NetWord, ParPort, Param, ParamBits, ParamItem, ParamType,
    ParamWord, Port, Range, Sign, TypeTree, Typedef, Way, WholeWord, Word,
};

impl Part for BitsWord {
    ghost text = { spec.write_bits_key };

    #[tactic(auto, unfolding(crate::specs::Forms::write_bits_key))]
    fn put(&self, out: &mut Writer) {
        match self {
            BitsWord::Logic => out.key(b"logic"),
            BitsWord::Reg => out.key(b"reg"),
        }
    }
}

impl Part for Sign {
    ghost text = { spec.write_sign_key };

    #[tactic(auto, unfolding(crate::specs::Forms::write_sign_key))]
    fn put(&self, out: &mut Writer) {
        sign_word(out, *self)
    }
}

impl Part for Range {
    ghost text = { spec.write_range };

    fn put(&self, out: &mut Writer) {
        out.mark(b"[");
        expr_and_mark(out, &self.left, b":");
        expr_and_mark(out, &self.right, b"]")
    }
}

pub fn given(out: &mut Writer, x: &Expr)
    ensures { Adds (spec.write_given x.now) out.old out.new }
{
    out.mark(b"=");
    expr(out, x)
}

fn maybe_given(out: &mut Writer, option: &Option<Expr>)
    ensures { Adds (writing.maybe spec.write_given option.now) out.old out.new }
{
    match option {
        Some(part) => given(out, part),
        None => {}
    }
}

impl Part for EnumLabel {
    ghost text = { spec.write_enum_label };

    fn put(&self, out: &mut Writer) {
        out.name(&self.name);
        maybe_given(out, &self.value)
    }
}

// ---- types

fn vector(out: &mut Writer, word: &Option<BitsWord>, sign: &Option<Sign>, all: &[Range])
    ensures { Adds (spec.vector word.now sign.now all.now) out.old out.new }
{
    maybe(out, word);
    maybe(out, sign);
    each(out, all)
}

// The labels of an enumeration.
fn labels(out: &mut Writer, all: &[EnumLabel])
    ensures { Adds (spec.labels all.now) out.old out.new }
{
    out.mark(b"{");
    commas(out, all);
    out.mark(b"}")
}

fn enumeration(
    out: &mut Writer,
    word: &BitsWord,
    sign: &Option<Sign>,
    of: &Option<Range>,
    all: &[EnumLabel],
)
    ensures { Adds (spec.enumeration word.now sign.now of.now all.now) out.old out.new }
{
    out.key(b"enum");
    word.put(out);
    maybe(out, sign);
    maybe(out, of);
    labels(out, all)
}

// What stands before the members of a structure.
fn packed(out: &mut Writer, sign: &Option<Sign>)
    ensures { Adds (spec.packed sign.now) out.old out.new }
{
    out.key(b"struct");
    out.key(b"packed");
    maybe(out, sign);
    out.mark(b"{")
}

#[cycle(form)]
fn structure(out: &mut Writer, sign: &Option<Sign>, members: &[Member], all: &[Range])
    ensures { Adds (spec.structure sign.now members.now all.now) out.old out.new }
{
    packed(out, sign);
    all_members(out, members);
    out.mark(b"}");
    each(out, all)
}

#[cycle(form)]
fn all_members(out: &mut Writer, all: &[Member])
    ensures { Adds (writing.each spec.write_member all.now) out.old out.new }
{
    'parts: for part in all {
        member(out, part);
    }
}

/// Writes names, and the mark behind them.
pub fn names_end(out: &mut Writer, all: &[Word])
    ensures { Adds (spec.names_end all.now) out.old out.new }
{
    commas(out, all);
    out.mark(b";")
}

#[cycle(form)]
fn member(out: &mut Writer, x: &Member)
    ensures { Adds (spec.write_member x.now) out.old out.new }
{
    match x {
        Member::Of(of, all) => {
            form(out, of.get());
            names_end(out, all.as_slice())
        }
    }
}

/// Writes a type.
#[cycle(form)]
pub fn form(out: &mut Writer, x: &TypeTree)
    ensures { Adds (spec.write_type x.now) out.old out.new }
{
    match x {
        TypeTree::Vector(word, sign, all) => vector(out, word, sign, all.as_slice()),
        TypeTree::Integer => out.key(b"integer"),
        TypeTree::Struct(sign, members, all) => {
            structure(out, sign, members.as_slice(), all.as_slice())
        }
        TypeTree::Enum(word, sign, of, all) => { enumeration(out, word, sign, of, all.as_slice()) }
        TypeTree::Named(word, all) => {
            out.name(word);
            each(out, all.as_slice())
        }
    }
}

impl Part for TypeTree {
    ghost text = { spec.write_type };

    fn put(&self, out: &mut Writer) {
        form(out, self)
    }
}

/// Writes a definition of a type.
pub fn typedef(out: &mut Writer, x: &Typedef)
    ensures { Adds (spec.write_typedef x.now) out.old out.new }
{
    out.key(b"typedef");
    form(out, &x.form);
    out.name(&x.name);
    out.mark(b";")
}

// ---- parameters

#[tactic(auto, unfolding(crate::specs::Forms::write_whole_key))]
pub fn whole_word(out: &mut Writer, word: WholeWord)
    ensures { Adds (spec.write_whole_key word) out.old out.new }
{
    match word {
        WholeWord::Int => out.key(b"int"),
        WholeWord::Integer => out.key(b"integer"),
    }
}

impl Part for ParamBits {
    ghost text = { spec.write_param_bits_key };

    #[tactic(auto, unfolding(crate::specs::Forms::write_param_bits_key))]
    fn put(&self, out: &mut Writer) {
        match self {
            ParamBits::Bit => out.key(b"bit"),
            ParamBits::Logic => out.key(b"logic"),
            ParamBits::Reg => out.key(b"reg"),
        }
    }
}

impl Part for ParamWord {
    ghost text = { spec.write_param_key };

    #[tactic(auto, unfolding(crate::specs::Forms::write_param_key))]
    fn put(&self, out: &mut Writer) {
        match self {
            ParamWord::Parameter => out.key(b"parameter"),
            ParamWord::Localparam => out.key(b"localparam"),
        }
    }
}

impl Part for ParamType {
    ghost text = { spec.write_param_type };

    fn put(&self, out: &mut Writer) {
        match self {
            ParamType::Whole(word, sign) => {
                whole_word(out, *word);
                maybe(out, sign)
            }
            ParamType::Bits(word, sign, of) => {
                maybe(out, word);
                maybe(out, sign);
                maybe(out, of)
            }
        }
    }
}

impl Part for ParPort {
    ghost text = { spec.write_par_port };

    fn put(&self, out: &mut Writer) {
        maybe(out, &self.word);
        maybe(out, &self.form);
        out.name(&self.name);
        given(out, &self.value)
    }
}

impl Part for ParamItem {
    ghost text = { spec.write_param_item };

    fn put(&self, out: &mut Writer) {
        out.name(&self.name);
        given(out, &self.value)
    }
}

/// Writes a declaration of parameters.
pub fn param(out: &mut Writer, x: &Param)
    ensures { Adds (spec.write_param x.now) out.old out.new }
{
    x.word.put(out);
    maybe(out, &x.form);
    commas(out, x.list.as_slice());
    out.mark(b";")
}

// ---- ports

impl Part for Way {
    ghost text = { spec.write_way_key };

    #[tactic(auto, unfolding(crate::specs::Forms::write_way_key))]
    fn put(&self, out: &mut Writer) {
        match self {
            Way::Input => out.key(b"input"),
            Way::Output => out.key(b"output"),
            Way::Inout => out.key(b"inout"),
        }
    }
}

impl Part for NetWord {
    ghost text = { spec.write_net_key };

    #[tactic(auto, unfolding(crate::specs::Forms::write_net_key))]
    fn put(&self, out: &mut Writer) {
        match self {
            NetWord::Wire => out.key(b"wire"),
            NetWord::Tri => out.key(b"tri"),
        }
    }
}

impl Part for Port {
    ghost text = { spec.write_port };

    fn put(&self, out: &mut Writer) {
        maybe(out, &self.way);
        maybe(out, &self.kind);
        maybe(out, &self.form);
        out.name(&self.name)
    }
}
