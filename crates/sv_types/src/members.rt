// The members of structures (IEEE 1800-2017, 7.2).
ghost use Rattle.std.specs.Prelude.{◌≡◌, ◌≤◌, ◌+◌, ◌||◌, nat_le, nat_lt, IfOk, All, map};
ghost use Rattle.sv_names.specs.Kinds.{layout_is, IsSound, FieldIsSound, members_of};
ghost use Rattle.sv_meaning.specs.Forms.{member_faults};
ghost use Rattle.sv_meaning.specs.Layouts.{depth, width_all};
ghost use Rattle.sv_meaning.specs.Names.{has_name};
ghost use Rattle.sv_types.specs.Types.{field_names, JudgesField, JudgesFields};

use crate::copies::copy;
use crate::depth::MOST_LEVELS;
use items::Items;
use std::alloc::Global;
use sv_names::{Field, Layout};
use sv_outside::{TextErr, refusals};
use sv_tree::Word;
use sv_typing::refusal;

// Whether a member has the name.
fn has_field(fields: &[Field], name: &[u8]) -> bool
    ensures { result ≡ has_name name.now (field_names fields.now) }
{
    'fields: for field in fields {
        if field.name.bytes() == name {
            return true;
        }
    }
    false
}

// Whether a member of so many bits is none behind so many others: all have more than 128 bits, or it is nested too deep.
fn is_too_large(bits: u8, width: u8, deep: bool) -> bool
    requires { bits ≤ 128 }
    ensures { result ≡ (nat_lt 128 (bits + width) || deep) }
{
    width > 128 - bits || deep
}

// Whether a structure with such a member is nested too deep.
fn is_too_deep(layout: &Layout) -> bool
    requires { IsSound layout.now }
    ensures { result ≡ nat_le 1000 (depth (layout_is layout.now)) }
{
    layout.depth >= MOST_LEVELS
}

// One member more, behind members of so many bits; or E13 or E14.
fn add_field(
    alloc: Global,
    layout: &Layout,
    deep: bool,
    word: &Word,
    fields: &mut Items<Field>,
    bits: u8,
) -> Result<u8, TextErr>
    requires sound { IsSound layout.now }
    requires deep { deep ≡ nat_le 1000 (depth (layout_is layout.now)) }
    requires bits { bits ≡ width_all (members_of fields.old) }
    requires most { bits ≤ 128 }
    ensures { JudgesField layout.now word.now fields.old fields.new result }
{
    if has_field(fields.as_slice(), word.text.bytes()) {
        return Err(TextErr::No(refusal(refusals::TWICE, word.place)));
    }
    let width = layout.width;
    if is_too_large(bits, width, deep) {
        return Err(TextErr::No(refusal(refusals::WIDTH, word.place)));
    }
    let layout = copy(alloc, layout)?;
    let name = word.text.copy()?;
    fields.push(Field { name, layout })?;
    Ok(bits + width)
}

/// A member of each of the names, behind members of so many bits: the bits of all; or E13 or E14.
pub(crate) fn add_fields(
    alloc: Global,
    layout: &Layout,
    words: &[Word],
    fields: &mut Items<Field>,
    bits: u8,
) -> Result<u8, TextErr>
    requires sound { IsSound layout.now }
    requires bits { bits ≡ width_all (members_of fields.old) }
    requires most { bits ≤ 128 }
    ensures { JudgesFields layout.now words.now fields.old fields.new result }
{
    let deep = is_too_deep(layout);
    let mut total = bits;
    'words: for word in words {
        total = add_field(alloc, layout, deep, word, fields, total)?;
    }
    Ok(total)
}
