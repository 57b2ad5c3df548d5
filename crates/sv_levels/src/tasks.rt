// What a walk through the items of a design finds.
use crate::levels::Front;
use sv_names::Layout;
use sv_outside::Name;
use sv_tree::{Block, Expr, Lvalue, Pins, Way, Word};

/// An expression of the text, or a name that stands for itself.
#[derive(Clone, Copy)]
pub enum Actual<'a> {
    /// The name without selects, where `.name` stands alone.
    Named(&'a Word),
    Written(&'a Expr),
}

/// What contributes or joins.
pub enum Task<'a> {
    /// A continuous assignment: its target and its value.
    Assigning(&'a Lvalue, &'a Expr),
    /// A block of statements.
    Running(&'a Block),
    /// A connected port: its direction, wire and layout, and the actual, which is read in the scope of the instantiation.
    Connecting {
        way: Way,
        wire: usize,
        layout: Layout,
        actual: Actual<'a>,
    },
}

impl Drop for Task<'_> {
    fn drop(self) {
        match self {
            Task::Assigning(_, _) => {}
            Task::Running(_) => {}
            Task::Connecting {
                way: _,
                wire: _,
                layout: _,
                actual: _,
            } => {}
        }
    }
}

/// A task, and the place where it is read.
pub struct Work<'a> {
    pub at: Front,
    pub task: Task<'a>,
}

impl Drop for Work<'_> {
    fn drop(self) {
        let Work { at: _, task: _ } = self;
    }
}

/// An expression that is given to a parameter, and where it is read.
#[derive(Clone, Copy)]
pub struct Given<'a> {
    pub name: &'a Word,
    pub at: Front,
    pub value: Actual<'a>,
}

/// An instance that is still to be opened.
pub struct Child<'a> {
    pub at: Front,
    pub of_module: &'a Word,
    pub name: &'a Word,
    pub path: Name,
    pub params: Option<&'a Pins>,
    pub pins: Option<&'a Pins>,
}

impl Drop for Child<'_> {
    fn drop(self) {
        let Child {
            at: _,
            of_module: _,
            name: _,
            path: _,
            params: _,
            pins: _,
        } = self;
    }
}
