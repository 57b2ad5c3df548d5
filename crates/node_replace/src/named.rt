//! Variables replaced by the nodes that are named for them.

ghost use Rattle.std.specs.Prelude.{◌≡◌, ℕ, ◌<◌, length, IsTrue, IfOk, OnOk};
ghost use Rattle.svex_shape.specs.declared.shape.VarName.{VarName};
ghost use Rattle.svex_shape.specs.declared.shape.Shape.TheVariants.{Var};
ghost use Rattle.svex_shape.specs.Shapes.{shape_at};
ghost use Rattle.svex_shape.specs.Values.{each_variable};
ghost use Rattle.svex_arena.specs.Arenas.{IsArena, Extends};
ghost use Rattle.svex_arena.specs.Substs.{fits_variable, given_or};
ghost use Rattle.node_replace.specs.Walks.{is_variable};
ghost use Rattle.node_replace.specs.Replacing.{IsReplacing, IsReplaced, named_or};

use crate::replacer::Replacer;
use std::alloc::{AllocError, Global};
use svex_arena::{Arena, Node, Shape, Subst, VarName};

// The node that is named, or another.
fn node_or(found: Option<Node>, other: Node) -> Node
    ensures { result ≡ given_or (λ n. n) other found }
{
    match found {
        Some(node) => node,
        None => other,
    }
}

// What is named for a variable, or the variable itself.
fn named(arena: &Arena, by: &Subst, variable: Node) -> Node
    requires there { variable < length arena.now }
    requires variable { IsTrue (is_variable (shape_at arena.now variable)) }
    ensures { (name : VarName) (width : ℕ) → shape_at arena.now variable ≡ Var name width → result ≡ named_or by.now name variable }
{
    let shape = arena.shape(variable);
    match &shape {
        Shape::Var(name, _) => node_or(by.of(name), variable),
        _ => variable,
    }
}

impl Replacer {
    /// What a node becomes once variables are replaced by the nodes that are named for them, all at once: what is put in for a variable
    /// is not looked at again. Takes time for the nodes that have no answer yet. Between calls with other names, answers are to be
    /// forgotten.
    pub fn replace(
        &mut self,
        arena: &mut Arena,
        alloc: Global,
        by: &Subst,
        root: Node,
    ) -> Result<Node, AllocError>
        requires replacing { IsReplacing by.now arena.old self.old }
        requires root { root < length self.old.answers.items }
        requires fits { IsTrue (each_variable (fits_variable by.now arena.old) arena.old root) }
        ensures replaced { IfOk result (IsReplaced by.now arena.old root arena.new) }
        ensures replacing { OnOk result (IsReplacing by.now arena.new self.new) }
        ensures size { OnOk result (length self.new.answers.items ≡ length self.old.answers.items) }
        ensures extends { Extends arena.old arena.new }
        ensures arena { IsArena arena.new }
    {
        // For the proof: recalls what the type promises of it.
        let _ = arena.len();
        self.begin(arena, root)?;
        let mut next = self.next_variable(arena, alloc)?;
        'variables: while let Some(variable) = next {
            let answer = named(arena, by, variable);
            self.give(arena, variable, answer, true)?;
            next = self.next_variable(arena, alloc)?;
        }
        Ok(self.answer_of(root))
    }
}
