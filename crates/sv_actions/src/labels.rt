// Labels of case statements.
ghost use Rattle.std.specs.Prelude.{◌≡◌, ◌&&◌, map};
ghost use Rattle.sv_meaning.specs.Values.{mean};
ghost use Rattle.sv_names.specs.Names.{names_are};
ghost use Rattle.sv_actions.specs.Listing.{JudgesLabels};

use items::Items;
use std::alloc::Global;
use sv_names::Names;
use sv_outside::TextErr;
use sv_tree::Expr;
use sv_typed::Typed;
use sv_typing::{Position, typed};

/// The labels of an arm, with the largest of their sizes, and whether all are signed.
#[derive(Drop)]
pub struct Labels {
    pub all: Items<Typed>,
    pub width: u8,
    pub signed: bool,
}

/// Whether both hold.
pub(crate) fn both(x: bool, y: bool) -> bool
    ensures { result ≡ (x && y) }
{
    x && y
}

/// The labels of an arm, or why one of them is refused.
pub(crate) fn typed_labels(
    alloc: Global,
    labels: &[Expr],
    names: &Names<'_>,
) -> Result<Labels, TextErr>
    ensures { JudgesLabels (map (mean (names_are names.now)) labels.now) result }
{
    let mut all = Items::new(alloc);
    let mut width = 0u8;
    let mut signed = true;
    'labels: for label in labels {
        let label = typed(alloc, label, names, Position::Free)?;
        width = width.max(label.width);
        signed = both(signed, label.signed);
        all.push(label)?;
    }
    Ok(Labels { all, width, signed })
}
