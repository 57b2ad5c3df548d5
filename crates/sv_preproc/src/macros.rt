// Macros, and the tokens that their texts stand for (IEEE 1800-2017, 22.5.1). The text of each name's latest definition
// stands in a map that is ordered by names, and not by a hash, so that no names make a look-up slow. A use is expanded at its
// place, and each token of a macro's text is counted, so that texts which double at each name end at a bound.
ghost use Rattle.std.specs.Prelude.{◌≡◌, ◌≤◌, ◌<◌, ◌+◌, ◌++◌, ◌∷◌, [], ℕ, List, length, take, drop, IfOk, OnOk, IfErr, Option, Some, None, option_map};
ghost use Rattle.std.specs.Map.{update};
ghost use Rattle.std.specs.Str.{bytes_eq};
ghost use Rattle.sv_outside.specs.declared.text.Token.{Token};
ghost use Rattle.sv_preproc.specs.Directives as spec;
ghost use Rattle.sv_preproc.specs.Reached.{Overruns};
ghost use Rattle.sv_preproc.specs.Seen.{texts, Writes, Uses, IfRefused, CanNotUse};

use crate::error::ItemErr;
use crate::line::put_at;
use crate::role::{Role, role_of};
use std::alloc::{AllocError, Global};
use std::collections::BTreeMap;
use sv_outside::{Place, Token, refusals};

/// The most tokens that are counted.
pub const MOST_COUNTED: usize = 4_000_000;

// So many uses may nest within a use.
const DEEPEST_USE: usize = 63;

/// The texts of the macros, by name.
#[derive(Drop)]
pub struct Macros {
    pub alloc: Global,
    pub texts: BTreeMap<Vec<u8>, Vec<Token>>,
}

impl Macros {
    ghost use Rattle.sv_preproc.specs.Seen.{texts};
    ghost use Rattle.sv_preproc.specs.Directives as spec;

    /// No macros.
    #[tactic(auto, using(crate::proofs::Texts::no_texts))]
    pub fn new(alloc: Global) -> Macros
        ensures { texts result ≡ spec.no_macros }
    {
        Macros {
            alloc,
            texts: BTreeMap::new(alloc),
        }
    }

    /// The text of the name's latest definition.
    #[tactic(auto, unfolding(crate::specs::Seen::texts))]
    pub fn text(&self, name: &[u8]) -> Option<&[Token]>
        ensures { option_map (λ text. text.now) result ≡ texts self.now name.now }
    {
        match self.texts.get(name) {
            Some(text) => Some(text),
            None => None,
        }
    }

    /// Whether the name is defined.
    pub fn has(&self, name: &[u8]) -> bool
        ensures { result ≡ spec.has name.now (texts self.now) }
    {
        self.text(name).is_some()
    }

    /// Defines the name anew.
    pub fn define(&mut self, name: &[u8], text: Vec<Token>) -> Result<(), AllocError>
        ensures { OnOk result (texts self.new ≡ update bytes_eq (texts self.old) name.now (Some text.items)) }
    {
        let key = name.to_vec(self.alloc)?;
        let _ = self.texts.insert(key, text)?;
        Ok(())
    }

    /// The name has no text from here on.
    pub fn forget(&mut self, name: &[u8])
        ensures { texts self.new ≡ update bytes_eq (texts self.old) name.now None }
    {
        let _ = self.texts.remove(name);
    }
}

// A backtick name without its backtick.
fn name_of(token: &Token) -> &[u8]
    ensures { result.now ≡ spec.name_of token.now }
{
    let text = token.text.bytes();
    match text.split_first() {
        Some((_, name)) => name,
        None => text,
    }
}

// Writes the tokens that a macro's text stands for at the place of a use, with so many more uses nested, and counts on.
fn expand(
    macros: &Macros,
    depth: usize,
    text: &[Token],
    place: Place,
    out: &mut Vec<Token>,
    counted: usize,
) -> Result<usize, ItemErr>
    requires { counted ≤ spec.most_counted }
    ensures within { IfOk result (λ total. total ≤ spec.most_counted) }
    ensures written { IfOk result (λ total. Writes (spec.Expands (texts macros.now) place depth text.now) out.old.items out.new.items counted total) }
    ensures refused { IfErr result (IfRefused (Overruns (texts macros.now) place depth text.now counted)) }
{
    let mut total = counted;
    let mut rest = text;
    'pieces: while let Some((first, after)) = rest.split_first() {
        if total == MOST_COUNTED {
            return Err(ItemErr::Refused(refusals::TOO_LONG));
        }
        match role_of(first) {
            Role::Kept => {
                put_at(first, place, out)?;
                total += 1;
                rest = after;
            }
            Role::Used => {
                let Some(inner) = macros.text(name_of(first)) else {
                    return Err(ItemErr::Refused(refusals::MACRO_UNKNOWN));
                };
                if depth == 0 {
                    return Err(ItemErr::Refused(refusals::MACRO_DEEP));
                }
                total = expand(macros, depth - 1, inner, place, out, total + 1)?;
                rest = after;
            }
            _ => return Err(ItemErr::Refused(refusals::MACRO_UNKNOWN)),
        }
    }
    Ok(total)
}

/// Writes the tokens that a use stands for, and counts on.
pub fn expand_use(
    macros: &Macros,
    token: &Token,
    out: &mut Vec<Token>,
    counted: usize,
) -> Result<usize, ItemErr>
    requires { counted ≤ spec.most_counted }
    ensures within { IfOk result (λ total. total ≤ spec.most_counted) }
    ensures written { IfOk result (λ total. Uses (texts macros.now) token.now out.old.items out.new.items counted total) }
    ensures refused { IfErr result (IfRefused (CanNotUse (texts macros.now) token.now counted)) }
{
    let Some(text) = macros.text(name_of(token)) else {
        return Err(ItemErr::Refused(refusals::MACRO_UNKNOWN));
    };
    expand(macros, DEEPEST_USE, text, token.place, out, counted)
}
