// The places in the scopes around a scope. A block has those of the scope that it stands in, and one more, so it shares them: it takes
// the same memory however many scopes are around it.
ghost use Rattle.std.specs.Prelude.{◌≡◌, [], ◌∷◌, ◌++◌, map, IfOk, OnOk};
ghost use Rattle.sv_levels.specs.Levels.{front_is, fronts_are};

use crate::levels::Front;
use items::Items;
use std::alloc::{AllocError, Global};
use sv_names::Shared;

/// Places in scopes around one another.
#[cycle(fronts)]
pub enum Fronts {
    /// No scope is around.
    Outermost,
    /// A place, and those around its scope.
    Within {
        front: Front,
        around: Shared<Fronts>,
    },
}

impl Drop for Fronts {
    #[cycle(fronts_drop)]
    fn drop(self) {
        match self {
            Fronts::Outermost => {}
            Fronts::Within {
                front: _,
                around: _,
            } => {}
        }
    }
}

/// No places.
pub fn outermost(alloc: Global) -> Result<Shared<Fronts>, AllocError>
    ensures { IfOk result (λ fronts. fronts_are fronts ≡ []) }
{
    Shared::new(alloc, Fronts::Outermost)
}

/// One place more, within others.
pub fn within(
    alloc: Global,
    front: Front,
    around: &Shared<Fronts>,
) -> Result<Shared<Fronts>, AllocError>
    ensures { IfOk result (λ fronts. fronts_are fronts ≡ fronts_are around.now ++ front_is front ∷ []) }
{
    let around = share(alloc, around)?;
    Shared::new(alloc, Fronts::Within { front, around })
}

// The same places, with one owner more; or made again, where their owners can no longer be counted.
#[cycle(share)]
fn share(alloc: Global, fronts: &Shared<Fronts>) -> Result<Shared<Fronts>, AllocError>
    ensures { IfOk result (λ shared. shared ≡ fronts.now) }
{
    match fronts.share() {
        Some(shared) => Ok(shared),
        None => {
            let made = copy(alloc, fronts.get())?;
            Shared::new(alloc, made)
        }
    }
}

// The same places again.
#[cycle(share)]
fn copy(alloc: Global, fronts: &Fronts) -> Result<Fronts, AllocError>
    ensures { IfOk result (λ made. made ≡ fronts.now) }
{
    match fronts {
        Fronts::Outermost => Ok(Fronts::Outermost),
        Fronts::Within { front, around } => {
            let around = share(alloc, around)?;
            Ok(Fronts::Within {
                front: *front,
                around,
            })
        }
    }
}

/// All places, the outermost first, behind others. The call is nested as deep as the scopes, of which 200 blocks at most lie in one
/// another.
#[cycle(collect)]
pub(crate) fn collect(fronts: &Fronts, all: &mut Items<Front>) -> Result<(), AllocError>
    ensures { OnOk result (map front_is all.new ≡ map front_is all.old ++ fronts_are fronts.now) }
{
    match fronts {
        Fronts::Outermost => Ok(()),
        Fronts::Within { front, around } => {
            collect(around.get(), all)?;
            all.push(*front)
        }
    }
}
