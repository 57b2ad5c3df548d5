// The front of a file's tokens: which item stands there, told from its first tokens and from whether the branch counts.
// Nothing is done about it here, so that each function is one definition by cases, with no state in its contract.
ghost use Rattle.std.specs.Prelude.{◌≡◌, ◌&&◌, ◌==◌, ◌∷◌};
ghost use Rattle.sv_preproc.specs.Directives as spec;
ghost use Rattle.sv_preproc.specs.Roles as roles;
ghost use Rattle.sv_preproc.specs.Seen.{shown};

use crate::line::line_rest;
use crate::role::{Role, may_name, role_of};
use sv_outside::{Kind, Place, Token, refusals};
use sv_token::Lined;

/// What stands at the front, and what stands behind it.
pub enum Item<'a> {
    Ended,
    Kept(&'a Token, &'a [Lined]),
    Passed(&'a [Lined]),
    Used(&'a Token, &'a [Lined]),
    /// The name, the line, and what stands behind the name.
    Defined(&'a Token, usize, &'a [Lined]),
    Forgotten(&'a Token, &'a [Lined]),
    /// The directive, and the quoted name.
    Included(&'a Token, &'a Token, &'a [Lined]),
    Opened(bool, &'a Token, &'a [Lined]),
    Broken(u8, Place),
}

/// Whether the token is a word.
pub fn is_word(token: &Token) -> bool
    ensures { result ≡ roles.is_word token.now.kind }
{
    match token.kind {
        Kind::Word => true,
        _ => false,
    }
}

fn is_quoted(token: &Token) -> bool
    ensures { result ≡ roles.is_quoted token.now.kind }
{
    match token.kind {
        Kind::Quoted => true,
        _ => false,
    }
}

// Whether the word names the macro that the `define` defines.
fn is_macro_name(directive: &Lined, name: &Lined) -> bool
    ensures { result ≡ (roles.is_word name.now.token.kind && (name.now.line == directive.now.line) && roles.may_name name.now.token.text) }
{
    is_word(&name.token) && name.line == directive.line && may_name(name.token.text.bytes())
}

// Whether the token is a `(` directly behind the name.
fn opens_arguments(name: &Token, token: &Token) -> bool
    ensures { result ≡ roles.opens_arguments name.now token.now }
{
    token.text.bytes() == b"(".as_slice()
        && token.place.line == name.place.line
        && token.place.column >= name.place.column
        && token.place.column - name.place.column == name.text.bytes().len()
}

fn arguments(name: &Token, behind: &[Lined]) -> Option<Place>
    ensures { result ≡ spec.arguments name.now behind.now }
{
    match behind.split_first() {
        Some((first, _)) if opens_arguments(name, &first.token) => Some(first.token.place),
        _ => None,
    }
}

fn define_item<'a>(directive: &'a Lined, after: &'a [Lined]) -> Item<'a>
    ensures { shown result ≡ spec.define_item directive.now after.now }
{
    let Some((name, behind)) = after.split_first() else {
        return Item::Broken(refusals::BAD_TOKEN, directive.token.place);
    };
    if !is_macro_name(directive, name) {
        return Item::Broken(refusals::BAD_TOKEN, directive.token.place);
    }
    match arguments(&name.token, behind) {
        Some(place) => Item::Broken(refusals::OUT_OF_SCOPE, place),
        None => Item::Defined(&name.token, directive.line, behind),
    }
}

fn undef_item<'a>(directive: &'a Lined, after: &'a [Lined]) -> Item<'a>
    ensures { shown result ≡ spec.undef_item directive.now after.now }
{
    match after.split_first() {
        Some((name, behind)) if is_word(&name.token) => Item::Forgotten(&name.token, behind),
        _ => Item::Broken(refusals::BAD_TOKEN, directive.token.place),
    }
}

fn open_item<'a>(wanted: bool, directive: &'a Lined, after: &'a [Lined]) -> Item<'a>
    ensures { shown result ≡ spec.open_item wanted directive.now after.now }
{
    match after.split_first() {
        Some((name, behind)) if is_word(&name.token) => Item::Opened(wanted, &name.token, behind),
        _ => Item::Broken(refusals::BAD_TOKEN, directive.token.place),
    }
}

fn include_item<'a>(directive: &'a Lined, after: &'a [Lined]) -> Item<'a>
    ensures { shown result ≡ spec.include_item directive.now after.now }
{
    match after.split_first() {
        Some((name, behind)) if is_quoted(&name.token) => {
            Item::Included(&directive.token, &name.token, behind)
        }
        _ => Item::Broken(refusals::BAD_TOKEN, directive.token.place),
    }
}

/// The item at the front, in a branch that counts or in one that is skipped.
pub fn item_at<'a>(live: bool, first: &'a Lined, after: &'a [Lined]) -> Item<'a>
    ensures { shown result ≡ spec.item live (first.now ∷ after.now) }
{
    match role_of(&first.token) {
        Role::Kept if live => Item::Kept(&first.token, after),
        Role::Used if live => Item::Used(&first.token, after),
        Role::Define if live => define_item(first, after),
        Role::Undef if live => undef_item(first, after),
        Role::Include if live => include_item(first, after),
        Role::Continued => Item::Broken(refusals::BAD_TOKEN, first.token.place),
        Role::Ifdef => open_item(true, first, after),
        Role::Ifndef => open_item(false, first, after),
        Role::Elsif => Item::Ended,
        Role::Else => Item::Ended,
        Role::Endif => Item::Ended,
        Role::Line => Item::Passed(line_rest(first.line, after)),
        Role::Define => Item::Passed(line_rest(first.line, after)),
        Role::Kept | Role::Used | Role::Undef | Role::Include => Item::Passed(after),
    }
}
