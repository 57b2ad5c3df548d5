// The tokens of a whole text, without their places.
ghost use Rattle.sv_write.specs.Spelt.{AreLexemesOf};
ghost use Rattle.std.specs.Prelude.{IfOk};

use crate::modules::source;
use crate::{Lexeme, Writer};
use items::Items;
use std::alloc::{AllocError, Global};
use sv_tree::Source;

/// The kinds and texts of the tokens that the tree is spelled by, in order. Whatever tokens spell it, these are theirs,
/// so two texts with one tree differ in the places of their tokens alone. Of a tree that no tokens spell, as one with a
/// name that is reserved, nothing is said.
pub fn spell(alloc: Global, text: &Source) -> Result<Items<Lexeme>, AllocError>
    ensures { IfOk result (λ all. AreLexemesOf text.now all) }
{
    let mut writer = Writer::new(alloc);
    source(&mut writer, text);
    writer.end()
}
