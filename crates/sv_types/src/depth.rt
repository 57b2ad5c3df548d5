// How deep layouts are nested. They are dropped on the stack, by their depth.
ghost use Rattle.std.specs.Prelude.{◌≡◌, All, min, suc};
ghost use Rattle.sv_meaning.specs.Layouts.{deepest};
ghost use Rattle.sv_names.specs.Kinds.{FieldIsSound, members_of};

use sv_names::Field;

/// How many ranges and structures may lie in one another.
pub(crate) const MOST_LEVELS: u16 = 1000;

/// The depth of a structure of these members, counted to 1,000.
pub(crate) fn depth_over(fields: &[Field]) -> u16
    requires { All FieldIsSound fields.now }
    ensures { result ≡ min 1000 (suc (deepest (members_of fields.now))) }
{
    let mut found = 0u16;
    'fields: for field in fields {
        found = found.max(field.layout.depth);
    }
    (found + 1).min(MOST_LEVELS)
}
