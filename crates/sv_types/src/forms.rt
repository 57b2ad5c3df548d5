// Layouts of types, with the constants that they declare (IEEE 1800-2017, 6.19, 7.2 and 7.4). Types hold types through members,
// so two functions are a cycle, which takes trees apart; what is made of the parts stands outside of it. Enumerators are seen
// by what follows them in the type: they stand above the names while it is judged, and are taken off at the end whatever was
// found.
ghost use Rattle.std.specs.Prelude.{◌≡◌, ◌≤◌, true, List, [], Ok, IfOk, All, map};
ghost use Rattle.std.specs.Option.{option_copied};
ghost use Rattle.sv_names.specs.Kinds.{layout_is, IsSound, FieldIsSound, members_of};
ghost use Rattle.sv_names.specs.Names.{constants_are, stack_of, loops_of};
ghost use Rattle.sv_names.specs.declared.names.Names.{Names};
ghost use Rattle.sv_meaning.specs.Faults.{Judged};
ghost use Rattle.sv_meaning.specs.Forms as m_forms;
ghost use Rattle.sv_meaning.specs.Forms.{form, has_sign, named_layout};
ghost use Rattle.sv_meaning.specs.Layouts as m;
ghost use Rattle.sv_types.specs.Types.{JudgesLayout, JudgesForm, JudgesType, Forms, JudgesMembers, JudgesJoined, IsAbove, IsListed, pushed, forms_of, alone_form, enum_form, struct_of, struct_form};

use crate::bounds::Bounds;
use crate::copies::copy;
use crate::depth::depth_over;
use crate::enumerators::{Enumerator, enumerators};
use crate::members::add_fields;
use crate::ranges::{base_layout, dim, over_ranges, vector_layout};
use items::Items;
use std::alloc::{AllocError, Global};
use sv_names::{Field, Form, Layout, Names, Shared, scalar};
use sv_outside::{Place, TextErr, refusals};
use sv_tree::{EnumLabel, Member, Range, Sign, TypeTree, Word};
use sv_typing::{layout_under, refusal};

// No place of a text.
const NOWHERE: Place = Place {
    file: 0,
    line: 0,
    column: 0,
};

/// The layout of a type, and the constants that it declares, in order.
#[derive(Drop)]
pub struct Formed {
    pub layout: Layout,
    pub declared: Items<Enumerator>,
}

// The members of a structure with their bits together, and the constants that their types declare.
#[derive(Drop)]
pub(crate) struct Listed {
    pub fields: Items<Field>,
    pub bits: u8,
    pub declared: Items<Enumerator>,
}

pub(crate) fn has_sign(sign: Option<Sign>) -> bool
    ensures { result ≡ has_sign sign }
{
    sign == Some(Sign::Signed)
}

// A signed vector of 32 bits.
fn integer(alloc: Global) -> Result<Layout, TextErr>
    ensures { JudgesLayout (Ok (m.plain 32 true)) result }
{
    Ok(dim(alloc, true, Bounds::new(31, 0), scalar(false))?)
}

// A type that a name stands for with more ranges, or E12.
fn named_layout(
    alloc: Global,
    word: &Word,
    ranges: &[Range],
    names: &Names<'_>,
) -> Result<Layout, TextErr>
    ensures { JudgesLayout (named_layout (constants_are names.now) word.now (m.find word.now.text (constants_are names.now)) ranges.now) result }
{
    match layout_under(names.find_above(word.text.bytes())) {
        Some(layout) => {
            let each = copy(alloc, layout)?;
            over_ranges(alloc, false, ranges, names, each)
        }
        None => Err(TextErr::No(refusal(refusals::UNKNOWN_NAME, word.place))),
    }
}

// A layout with no constants.
fn alone(alloc: Global, layout: Result<Layout, TextErr>) -> Result<Formed, TextErr>
    ensures { (j : Judged m.Layout) (names : Names) → JudgesLayout j layout → Forms (alone_form j) names names result }
{
    match layout {
        Ok(layout) => Ok(Formed {
            layout,
            declared: Items::new(alloc),
        }),
        Err(why) => Err(why),
    }
}

// An enumeration.
fn enum_form(
    alloc: Global,
    signed: bool,
    range: Option<&Range>,
    all: &[EnumLabel],
    names: &mut Names<'_>,
) -> Result<Formed, TextErr>
    ensures { Forms (enum_form (constants_are names.old) signed (option_copied range.entry) all.now) names.old names.new result }
{
    match base_layout(alloc, signed, range, names) {
        Ok(layout) => match enumerators(alloc, layout.width, signed, all, names) {
            Ok(declared) => Ok(Formed { layout, declared }),
            Err(why) => Err(why),
        },
        Err(why) => Err(why),
    }
}

// A structure of these members, which have so many bits together.
fn structure(
    alloc: Global,
    signed: bool,
    fields: Items<Field>,
    bits: u8,
) -> Result<Layout, AllocError>
    requires sound { All FieldIsSound fields }
    requires bits { bits ≡ m.width_all (members_of fields) }
    requires some { 1 ≤ bits }
    requires most { bits ≤ 128 }
    ensures is { IfOk result (λ x. layout_is x ≡ m.struct signed (members_of fields)) }
    ensures sound { IfOk result (λ x. IsSound x) }
{
    let depth = depth_over(fields.as_slice());
    let fields = Shared::new(alloc, fields)?;
    Ok(Layout {
        width: bits,
        signed,
        depth,
        form: Form::Members(fields),
    })
}

// A structure of these members, with ranges; or E14. One of no members, which no text spells, is refused at no place.
fn struct_layout(
    alloc: Global,
    signed: bool,
    ranges: &[Range],
    names: &Names<'_>,
    fields: Items<Field>,
    bits: u8,
) -> Result<Layout, TextErr>
    requires sound { All FieldIsSound fields }
    requires bits { bits ≡ m.width_all (members_of fields) }
    requires most { bits ≤ 128 }
    ensures { JudgesLayout (struct_of (constants_are names.now) signed ranges.now (members_of fields)) result }
{
    if bits == 0 {
        return Err(TextErr::No(refusal(refusals::WIDTH, NOWHERE)));
    }
    if ranges.is_empty() {
        Ok(structure(alloc, signed, fields, bits)?)
    } else {
        let each = structure(alloc, false, fields, bits)?;
        over_ranges(alloc, signed, ranges, names, each)
    }
}

// A structure of members that are judged.
fn struct_form(
    alloc: Global,
    signed: bool,
    ranges: &[Range],
    names: &Names<'_>,
    listed: Result<Listed, TextErr>,
) -> Result<Formed, TextErr>
    requires { IfOk listed (λ x. IsListed x) }
    ensures { (j : Judged (m.Members × List m_forms.Declared)) (at : Names) → JudgesMembers j at names.now listed → Forms (struct_form (constants_are at) signed ranges.now j) at names.now result }
{
    match listed {
        Ok(
            Listed {
                fields,
                bits,
                declared,
            },
        ) => {
            match struct_layout(alloc, signed, ranges, names, fields, bits) {
                Ok(layout) => Ok(Formed { layout, declared }),
                Err(why) => Err(why),
            }
        }
        Err(why) => Err(why),
    }
}

// A type; the constants that it declares are added to the names.
#[cycle(form)]
fn form(alloc: Global, tree: &TypeTree, names: &mut Names<'_>) -> Result<Formed, TextErr>
    ensures { Forms (form (constants_are names.old) tree.now) names.old names.new result }
{
    match tree {
        TypeTree::Vector(_, sign, ranges) => {
            let layout = vector_layout(alloc, has_sign(*sign), ranges.as_slice(), names);
            alone(alloc, layout)
        }
        TypeTree::Integer => alone(alloc, integer(alloc)),
        TypeTree::Struct(sign, members, ranges) => {
            let listed = forms(alloc, members.as_slice(), names);
            struct_form(alloc, has_sign(*sign), ranges.as_slice(), names, listed)
        }
        TypeTree::Enum(_, sign, range, all) => {
            enum_form(
                alloc,
                has_sign(*sign),
                range.as_ref(),
                all.as_slice(),
                names,
            )
        }
        TypeTree::Named(word, ranges) => {
            let layout = named_layout(alloc, word, ranges.as_slice(), names);
            alone(alloc, layout)
        }
    }
}

// Members; the constants that their types declare are added to the names.
#[cycle(form)]
fn forms(alloc: Global, members: &[Member], names: &mut Names<'_>) -> Result<Listed, TextErr>
    ensures { JudgesMembers (forms_of (constants_are names.old) [] 0 members.now) names.old names.new result }
{
    let mut listed = Listed {
        fields: Items::new(alloc),
        bits: 0,
        declared: Items::new(alloc),
    };
    'members: for member in members {
        match member {
            Member::Of(tree, words) => {
                let formed = form(alloc, tree.get(), names);
                match joined(alloc, listed, formed, words.as_slice()) {
                    Ok(next) => listed = next,
                    Err(why) => return Err(why),
                }
            }
        }
    }
    Ok(listed)
}

// Members of one type more.
fn joined(
    alloc: Global,
    listed: Listed,
    formed: Result<Formed, TextErr>,
    words: &[Word],
) -> Result<Listed, TextErr>
    requires listed { IsListed listed }
    requires formed { IfOk formed (λ x. IsSound x.layout) }
    ensures { (j : Judged m_forms.Formed) (a b c : Names) → IsAbove a b (map pushed listed.declared) → Forms j b c formed → JudgesJoined j a c listed words.now result }
{
    let Formed {
        layout,
        declared: more,
    } = formed?;
    let Listed {
        mut fields,
        bits,
        mut declared,
    } = listed;
    let bits = add_fields(alloc, &layout, words, &mut fields, bits)?;
    declared.append(more)?;
    Ok(Listed {
        fields,
        bits,
        declared,
    })
}

/// The layout of a type, and the constants that it declares, in order; or why it is refused: E12, E13, E14, or what an
/// expression is refused for. A layout nested more than 1,000 deep, each range and each structure being one level, is E14 at the
/// range, or at the member's name, that makes it so deep. The names are afterwards as before.
pub fn form_of(alloc: Global, tree: &TypeTree, names: &mut Names<'_>) -> Result<Formed, TextErr>
    ensures is { JudgesForm (form (constants_are names.old) tree.now) result }
    ensures frames { stack_of names.new ≡ stack_of names.old }
    ensures loops { loops_of names.new ≡ loops_of names.old }
{
    let count = names.loops();
    let formed = form(alloc, tree, names);
    names.leave_loops(count);
    formed
}

/// The layout of a type; or why it is refused, as for `form_of`. The names are afterwards as before.
pub fn layout_of(alloc: Global, tree: &TypeTree, names: &mut Names<'_>) -> Result<Layout, TextErr>
    ensures is { JudgesType (form (constants_are names.old) tree.now) result }
    ensures frames { stack_of names.new ≡ stack_of names.old }
    ensures loops { loops_of names.new ≡ loops_of names.old }
{
    let Formed { layout, .. } = form_of(alloc, tree, names)?;
    Ok(layout)
}
