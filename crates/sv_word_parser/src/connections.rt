// What stands behind the name of a connection.
ghost use Rattle.std.specs.Prelude.{◌≡◌, Some};
ghost use Rattle.sv_word_parser.specs.Connections as spec;

use sv_tree::{Expr, Pin};

/// A connection, by the expression in its parentheses; none is no connection.
pub fn given_pin(inner: Option<Expr>) -> Pin
    ensures { result ≡ spec.made_pin (Some inner) }
{
    match inner {
        Some(value) => Pin::Given(value),
        None => Pin::Open,
    }
}
