// Modules, their parameters, ports, instances and items, and whole texts (IEEE 1800-2017, A.1, A.2.1, A.4 and A.6.1). Each
// production is a type and each alternative a variant, so that a tree holds what was written, also where two writings mean the
// same. What repeats or nests is held by `Items` and `Boxed`, which contracts see as their contents.
use crate::parts::{drop_head, drop_labels};
use crate::{Block, Expr, Lvalue, Range, Sign, Step, TypeTree, Typedef, WholeWord, Word};
use items::{Boxed, Items};
use sv_outside::Place;

/// The word of a parameter (A.2.1.1).
#[derive(Clone, Copy)]
pub enum ParamWord {
    Parameter,
    Localparam,
}

/// The type of a parameter, at least one word or range (A.2.2.1, data_type_or_implicit).
pub enum ParamType {
    /// A whole number, and its sign.
    Whole(WholeWord, Option<Sign>),
    /// A vector of bits: the word, the sign and the range.
    Bits(Option<ParamBits>, Option<Sign>, Option<Range>),
}

impl Drop for ParamType {
    fn drop(self) {
        match self {
            ParamType::Whole(_, _) => {}
            ParamType::Bits(_, _, _) => {}
        }
    }
}

/// The word of a parameter that is a vector of bits (A.2.2.1, integer_vector_type).
#[derive(Clone, Copy)]
pub enum ParamBits {
    Bit,
    Logic,
    Reg,
}

/// A parameter of a module's header, and its default (A.1.3, parameter_port_declaration).
pub struct ParPort {
    pub word: Option<ParamWord>,
    pub form: Option<ParamType>,
    pub name: Word,
    pub value: Expr,
}

impl Drop for ParPort {
    fn drop(self) {
        let ParPort {
            word: _,
            form: _,
            name: _,
            value: _,
        } = self;
    }
}

/// A name, and its value (A.2.4, param_assignment).
pub struct ParamItem {
    pub name: Word,
    pub value: Expr,
}

impl Drop for ParamItem {
    fn drop(self) {
        let ParamItem { name: _, value: _ } = self;
    }
}

/// A declaration of one or more parameters (A.2.1.1, parameter_declaration and local_parameter_declaration).
pub struct Param {
    pub word: ParamWord,
    pub form: Option<ParamType>,
    pub list: Items<ParamItem>,
}

impl Drop for Param {
    fn drop(self) {
        let Param {
            word: _,
            form: _,
            list: _,
        } = self;
    }
}

/// The direction of a port (A.1.3, port_direction).
#[derive(Clone, Copy)]
pub enum Way {
    Input,
    Output,
    Inout,
}

/// The word of a net (A.2.2.1, net_type).
#[derive(Clone, Copy)]
pub enum NetWord {
    Wire,
    Tri,
}

/// A port of a module's header (A.1.3, ansi_port_declaration).
pub struct Port {
    pub way: Option<Way>,
    pub kind: Option<NetWord>,
    pub form: Option<TypeTree>,
    pub name: Word,
}

impl Drop for Port {
    fn drop(self) {
        let Port {
            way: _,
            kind: _,
            form: _,
            name: _,
        } = self;
    }
}

/// A target, and its value (A.6.1, net_assignment).
pub struct AssignPair {
    pub target: Lvalue,
    pub value: Expr,
}

impl Drop for AssignPair {
    fn drop(self) {
        let AssignPair {
            target: _,
            value: _,
        } = self;
    }
}

/// What stands behind the name of a named connection or override.
pub enum Pin {
    /// Nothing: the name itself is the expression.
    Same,
    /// `()`
    Open,
    /// An expression in parentheses.
    Given(Expr),
}

impl Drop for Pin {
    fn drop(self) {
        match self {
            Pin::Same => {}
            Pin::Open => {}
            Pin::Given(_) => {}
        }
    }
}

/// `.` and a name, and what stands behind it (A.4.1.1, named_port_connection and named_parameter_assignment).
pub struct NamedPin {
    pub name: Word,
    pub pin: Pin,
}

impl Drop for NamedPin {
    fn drop(self) {
        let NamedPin { name: _, pin: _ } = self;
    }
}

/// One or more connections or overrides (A.4.1.1, list_of_port_connections and list_of_parameter_assignments).
pub enum Pins {
    /// By name.
    Named(Items<NamedPin>),
    /// By order.
    Ordered(Items<Expr>),
}

impl Drop for Pins {
    fn drop(self) {
        match self {
            Pins::Named(_) => {}
            Pins::Ordered(_) => {}
        }
    }
}

/// An instance's name, and its connections, where it has some (A.4.1.1, hierarchical_instance).
pub struct One {
    pub name: Word,
    pub pins: Option<Pins>,
}

impl Drop for One {
    fn drop(self) {
        let One { name: _, pins: _ } = self;
    }
}

/// One or more instances of a module (A.4.1.1, module_instantiation). The parameters are `#(..)`, where it is there, with its pins, where it has some.
pub struct Inst {
    pub of_module: Word,
    pub params: Option<Option<Pins>>,
    pub list: Items<One>,
}

impl Drop for Inst {
    fn drop(self) {
        let Inst {
            of_module: _,
            params: _,
            list: _,
        } = self;
    }
}

/// An item of a module (A.1.4, module_or_generate_item).
#[cycle(item)]
pub enum Item {
    /// One or more nets (A.2.1.3, net_declaration).
    Net(NetWord, Option<TypeTree>, Items<Word>),
    /// One or more variables (A.2.1.3, data_declaration).
    Variable(TypeTree, Items<Word>),
    Typedef(Typedef),
    Param(Param),
    /// One or more loop variables (A.4.2, genvar_declaration).
    Genvar(Items<Word>),
    /// One or more assignments (A.6.1, continuous_assign).
    Assign(Items<AssignPair>),
    Always(Block),
    Inst(Inst),
    /// The place of the `for`, whether `genvar` stands in the header, the variable, its start, the condition, the step
    /// and the body (A.4.2, loop_generate_construct).
    For(Place, bool, Word, Expr, Expr, Step, Boxed<Gen>),
    /// The place of the `if`, the condition, the branch, and the one behind `else` (A.4.2, if_generate_construct).
    If(Place, Expr, Boxed<Gen>, Option<Boxed<Gen>>),
    /// `generate` .. `endgenerate` (A.4.2, generate_region)
    Generate(Items<Item>),
}

// Outside of the cycle, as what stands in `parts`.
fn drop_declared(_form: Option<TypeTree>, _names: Items<Word>) {}

impl Drop for Item {
    #[cycle(item_drop)]
    fn drop(self) {
        match self {
            Item::Net(_, form, names) => drop_declared(form, names),
            Item::Variable(form, names) => drop_declared(Some(form), names),
            Item::Typedef(_) => {}
            Item::Param(_) => {}
            Item::Genvar(_) => {}
            Item::Assign(_) => {}
            Item::Always(_) => {}
            Item::Inst(_) => {}
            Item::For(_, _, name, start, condition, step, _) => drop_head(
                name, start, condition, step,
            ),
            Item::If(_, _, _, _) => {}
            Item::Generate(_) => {}
        }
    }
}

/// The body of a generate loop, or a branch of a generate `if` (A.4.2, generate_block).
#[cycle(item)]
pub enum Gen {
    /// The place of the `begin`, the name behind it, the items, and the name behind the `end`.
    Block(Place, Option<Word>, Items<Item>, Option<Word>),
    /// One item with no `begin`, and the place of its first token.
    Single(Place, Boxed<Item>),
}

impl Drop for Gen {
    #[cycle(item_drop)]
    fn drop(self) {
        match self {
            Gen::Block(_, name, _, label) => drop_labels(name, label),
            Gen::Single(_, _) => {}
        }
    }
}

/// A module (A.1.2, module_declaration).
pub struct Module {
    pub name: Word,
    /// Those of `#( )`, which is not there where it would be empty.
    pub params: Items<ParPort>,
    /// Those in parentheses, where these are there. The first has a direction.
    pub ports: Option<Items<Port>>,
    pub items: Items<Item>,
    /// The name behind `endmodule`.
    pub label: Option<Word>,
}

impl Drop for Module {
    fn drop(self) {
        let Module {
            name: _,
            params: _,
            ports: _,
            items: _,
            label: _,
        } = self;
    }
}

/// A part of a text (A.1.2, description).
pub enum SourcePart {
    Module(Module),
    Typedef(Typedef),
    Param(Param),
}

impl Drop for SourcePart {
    fn drop(self) {
        match self {
            SourcePart::Module(_) => {}
            SourcePart::Typedef(_) => {}
            SourcePart::Param(_) => {}
        }
    }
}

/// A whole text (A.1.2, source_text).
pub struct Source {
    pub parts: Items<SourcePart>,
}

impl Drop for Source {
    fn drop(self) {
        let Source { parts: _ } = self;
    }
}
