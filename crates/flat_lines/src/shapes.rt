//! Shapes of nodes. The name of an operator is looked for among the names that are printed, so that there is one list of names; and
//! what an operator takes are numbers behind blanks.

ghost use Rattle.std.specs.Prelude.{◌≡◌};
ghost use Rattle.flat_words.specs.Readers.{joined, before, both, made};
ghost use Rattle.flat_words.specs.Readers as w;
ghost use Rattle.flat_lines.specs.Shapes as spec;

use flat_text::{binary_name, unary_name};
use flat_words::Words;
use fourvec::Spot;
use svex_shape::{Bin, Node, Shape, Un, VarName};

/// The operators that are not on one or two vectors alone.
#[derive(Clone, Copy)]
enum Form {
    Const,
    Var,
    Cond,
    Pick,
    Slice,
    Zext,
    Sext,
    DynSlice,
    DynPut,
}

fn form_name(form: Form) -> &'static [u8]
    ensures { result.now ≡ spec.form_name form }
{
    match form {
        Form::Const => b"const",
        Form::Var => b"var",
        Form::Cond => b"cond",
        Form::Pick => b"pick",
        Form::Slice => b"slice",
        Form::Zext => b"zext",
        Form::Sext => b"sext",
        Form::DynSlice => b"dyn_slice",
        Form::DynPut => b"dyn_put",
    }
}

const UNARY: [Un; 7] = [
    Un::Unfloat,
    Un::Not,
    Un::Neg,
    Un::RedAnd,
    Un::RedOr,
    Un::RedXor,
    Un::Truth,
];

const BINARY: [Bin; 18] = [
    Bin::And,
    Bin::Or,
    Bin::Xor,
    Bin::Eq,
    Bin::Lt,
    Bin::Slt,
    Bin::Add,
    Bin::Sub,
    Bin::Mul,
    Bin::Div,
    Bin::Rem,
    Bin::Sdiv,
    Bin::Srem,
    Bin::Res,
    Bin::Shl,
    Bin::Shr,
    Bin::Sar,
    Bin::Concat,
];

const FORMS: [Form; 9] = [
    Form::Const,
    Form::Var,
    Form::Cond,
    Form::Pick,
    Form::Slice,
    Form::Zext,
    Form::Sext,
    Form::DynSlice,
    Form::DynPut,
];

#[tactic(auto, unfolding(crate::specs::Shapes::unary_of))]
fn unary_of(word: &[u8]) -> Option<Un>
    ensures { result ≡ spec.unary_of word.now }
{
    UNARY.iter().copied().find(|op| unary_name(*op) == word)
}

#[tactic(auto, unfolding(crate::specs::Shapes::binary_of))]
fn binary_of(word: &[u8]) -> Option<Bin>
    ensures { result ≡ spec.binary_of word.now }
{
    BINARY.iter().copied().find(|op| binary_name(*op) == word)
}

#[tactic(auto, unfolding(crate::specs::Shapes::form_of))]
fn form_of(word: &[u8]) -> Option<Form>
    ensures { result ≡ spec.form_of word.now }
{
    FORMS.iter().copied().find(|form| form_name(*form) == word)
}

// A node behind a blank.
fn next(words: &mut Words) -> Option<Node>
    ensures { joined result words.new.rest.now ≡ w.next words.old.rest.now }
{
    let number = words.next()?;
    Some(Node::new(number))
}

#[tactic(auto, unfolding(flat_words::specs::Readers::made, flat_words::specs::Readers::before, crate::specs::Shapes::constant))]
fn constant(words: &mut Words) -> Option<Shape>
    ensures { joined result words.new.rest.now ≡ spec.constant words.old.rest.now }
{
    if !words.pass(b" ") {
        return None;
    }
    let value = words.vector()?;
    Some(Shape::Const(value))
}

#[tactic(auto, unfolding(flat_words::specs::Readers::made, flat_words::specs::Readers::both))]
fn present(words: &mut Words) -> Option<Shape>
    ensures { joined result words.new.rest.now
        ≡ made (λ x. Shape.Var (VarName.Now x.0) x.1) (both w.number w.next_byte) words.old.rest.now }
{
    let wire = words.number()?;
    let width = words.next_byte()?;
    Some(Shape::Var(VarName::Now(wire), width))
}

#[tactic(auto, unfolding(flat_words::specs::Readers::made, flat_words::specs::Readers::both))]
fn previous(words: &mut Words) -> Option<Shape>
    ensures { joined result words.new.rest.now
        ≡ made (λ x. Shape.Var (VarName.Prev x.0) x.1) (both w.number w.next_byte) words.old.rest.now }
{
    let wire = words.number()?;
    let width = words.next_byte()?;
    Some(Shape::Var(VarName::Prev(wire), width))
}

// A present or previous value of a wire.
#[tactic(auto, unfolding(crate::specs::Shapes::variable))]
fn variable(words: &mut Words) -> Option<Shape>
    ensures { joined result words.new.rest.now ≡ spec.variable words.old.rest.now }
{
    if words.pass(b" now ") {
        return present(words);
    }
    if words.pass(b" prev ") {
        return previous(words);
    }
    None
}

#[tactic(auto, unfolding(flat_words::specs::Readers::made))]
fn unary(op: Un, words: &mut Words) -> Option<Shape>
    ensures { joined result words.new.rest.now ≡ made (λ k. Shape.Unary op k) w.next words.old.rest.now }
{
    let a = next(words)?;
    Some(Shape::Unary(op, a))
}

#[tactic(auto, unfolding(flat_words::specs::Readers::made, flat_words::specs::Readers::both, crate::specs::Shapes::two))]
fn binary(op: Bin, words: &mut Words) -> Option<Shape>
    ensures { joined result words.new.rest.now ≡ made (λ x. Shape.Binary op x.0 x.1) spec.two words.old.rest.now }
{
    let a = next(words)?;
    let b = next(words)?;
    Some(Shape::Binary(op, a, b))
}

#[tactic(auto, unfolding(flat_words::specs::Readers::made, flat_words::specs::Readers::both, crate::specs::Shapes::two, crate::specs::Shapes::three))]
fn cond(words: &mut Words) -> Option<Shape>
    ensures { joined result words.new.rest.now ≡ made (λ x. Shape.Cond x.0 x.1.0 x.1.1) spec.three words.old.rest.now }
{
    let c = next(words)?;
    let a = next(words)?;
    let b = next(words)?;
    Some(Shape::Cond(c, a, b))
}

#[tactic(auto, unfolding(flat_words::specs::Readers::made, flat_words::specs::Readers::both, crate::specs::Shapes::two, crate::specs::Shapes::three))]
fn pick(words: &mut Words) -> Option<Shape>
    ensures { joined result words.new.rest.now ≡ made (λ x. Shape.Pick x.0 x.1.0 x.1.1) spec.three words.old.rest.now }
{
    let c = next(words)?;
    let a = next(words)?;
    let b = next(words)?;
    Some(Shape::Pick(c, a, b))
}

#[tactic(auto, unfolding(flat_words::specs::Readers::made, flat_words::specs::Readers::both, crate::specs::Shapes::part))]
fn slice(words: &mut Words) -> Option<Shape>
    ensures { joined result words.new.rest.now ≡ made (λ x. Shape.Slice x.0 x.1.0 x.1.1) spec.part words.old.rest.now }
{
    let of = next(words)?;
    let lo = words.next_byte()?;
    let width = words.next_byte()?;
    Some(Shape::Slice { of, lo, width })
}

#[tactic(auto, unfolding(flat_words::specs::Readers::made, flat_words::specs::Readers::both, crate::specs::Shapes::widened))]
fn zext(words: &mut Words) -> Option<Shape>
    ensures { joined result words.new.rest.now ≡ made (λ x. Shape.Zext x.0 x.1) spec.widened words.old.rest.now }
{
    let a = next(words)?;
    let width = words.next_byte()?;
    Some(Shape::Zext(a, width))
}

#[tactic(auto, unfolding(flat_words::specs::Readers::made, flat_words::specs::Readers::both, crate::specs::Shapes::widened))]
fn sext(words: &mut Words) -> Option<Shape>
    ensures { joined result words.new.rest.now ≡ made (λ x. Shape.Sext x.0 x.1) spec.widened words.old.rest.now }
{
    let a = next(words)?;
    let width = words.next_byte()?;
    Some(Shape::Sext(a, width))
}

#[tactic(auto, unfolding(flat_words::specs::Readers::made, flat_words::specs::Readers::both))]
fn dyn_slice(words: &mut Words) -> Option<Shape>
    ensures { joined result words.new.rest.now
        ≡ made (λ x. Shape.DynSlice x.0 x.1.0 x.1.1) (both w.next (both w.next w.next_spot)) words.old.rest.now }
{
    let of = next(words)?;
    let at = next(words)?;
    let spot = words.next_spot()?;
    Some(Shape::DynSlice { of, at, spot })
}

#[tactic(auto, unfolding(flat_words::specs::Readers::made, flat_words::specs::Readers::both))]
fn dyn_put(words: &mut Words) -> Option<Shape>
    ensures { joined result words.new.rest.now
        ≡ made (λ x. Shape.DynPut x.0 x.1.0 x.1.1.0 x.1.1.1) (both w.next (both w.next (both w.next_spot w.next))) words.old.rest.now }
{
    let of = next(words)?;
    let at = next(words)?;
    let spot: Spot = words.next_spot()?;
    let put = next(words)?;
    Some(Shape::DynPut { of, at, spot, put })
}

fn by_form(form: Form, words: &mut Words) -> Option<Shape>
    ensures { joined result words.new.rest.now ≡ spec.by_form form words.old.rest.now }
{
    match form {
        Form::Const => constant(words),
        Form::Var => variable(words),
        Form::Cond => cond(words),
        Form::Pick => pick(words),
        Form::Slice => slice(words),
        Form::Zext => zext(words),
        Form::Sext => sext(words),
        Form::DynSlice => dyn_slice(words),
        Form::DynPut => dyn_put(words),
    }
}

#[tactic(auto, unfolding(crate::specs::Shapes::by_word))]
fn by_word(word: &[u8], words: &mut Words) -> Option<Shape>
    ensures { joined result words.new.rest.now ≡ spec.by_word word.now words.old.rest.now }
{
    if let Some(op) = unary_of(word) {
        return unary(op, words);
    }
    if let Some(op) = binary_of(word) {
        return binary(op, words);
    }
    let form = form_of(word)?;
    by_form(form, words)
}

/// SHAPE, whose children have these numbers in the text.
#[tactic(auto, unfolding(crate::specs::Shapes::shape))]
pub fn shape(words: &mut Words) -> Option<Shape>
    ensures { joined result words.new.rest.now ≡ spec.shape words.old.rest.now }
{
    let word = words.word();
    by_word(word, words)
}
