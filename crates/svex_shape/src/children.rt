//! The children of a shape, by their numbers.

ghost use Rattle.std.specs.Prelude.{◌≡◌};
ghost use Rattle.svex_shape.specs.Children.{children_of};

use crate::shape::Shape;

/// The children of a shape, by their numbers.
#[derive(Clone, Copy)]
pub struct Children {
    pub first: Option<usize>,
    pub second: Option<usize>,
    pub third: Option<usize>,
}

fn these(first: Option<usize>, second: Option<usize>, third: Option<usize>) -> Children
    ensures { result ≡ record { first = first; second = second; third = third } }
{
    Children {
        first,
        second,
        third,
    }
}

/// The children of a shape.
pub fn child_nodes(shape: &Shape) -> Children
    ensures { result ≡ children_of shape.now }
{
    match shape {
        Shape::Const(_) => these(None, None, None),
        Shape::Var(_, _) => these(None, None, None),
        Shape::Unary(_, a) => these(Some(a.index()), None, None),
        Shape::Binary(_, a, b) => these(Some(a.index()), Some(b.index()), None),
        Shape::Cond(c, a, b) => these(Some(c.index()), Some(a.index()), Some(b.index())),
        Shape::Pick(c, a, b) => these(Some(c.index()), Some(a.index()), Some(b.index())),
        Shape::Slice { of, .. } => these(Some(of.index()), None, None),
        Shape::Zext(a, _) => these(Some(a.index()), None, None),
        Shape::Sext(a, _) => these(Some(a.index()), None, None),
        Shape::DynSlice { of, at, .. } => these(Some(of.index()), Some(at.index()), None),
        Shape::DynPut { of, at, put, .. } => {
            these(Some(of.index()), Some(at.index()), Some(put.index()))
        }
    }
}
