// The branches of conditionals (IEEE 1800-2017, 22.6). The conditionals that are open stand in a list of frames, the
// innermost last. Each function changes the list by one frame, and tells whether the branch that begins counts. So one
// loop reads branches that count and branches that are skipped, and no conditional takes a part of the stack.
ghost use Rattle.std.specs.Prelude.{◌≡◌, ◌⊎◌, ◌&&◌, ◌||◌, ◌++◌, ◌∷◌, [], ℕ, List, not, reverse, true, IfOk, OnOk, IfErr};
ghost use Rattle.sv_preproc.specs.Directives as spec;
ghost use Rattle.sv_preproc.specs.Reached as reached;
ghost use Rattle.sv_preproc.specs.Roles as roles;
ghost use Rattle.sv_preproc.specs.Seen.{texts, IfRefused};
ghost use Rattle.sv_preproc.specs.declared.known.Frame.{Frame};
ghost use Rattle.sv_preproc.specs.declared.role.Role.TheVariants as role;

use crate::error::ItemErr;
use crate::item::is_word;
use crate::known::Frame;
use crate::macros::Macros;
use crate::role::{Role, role_of};
use std::alloc::AllocError;
use sv_outside::refusals;
use sv_token::Lined;

fn both(first: bool, second: bool) -> bool
    ensures { result ≡ (first && second) }
{
    first && second
}

fn either(first: bool, second: bool) -> bool
    ensures { result ≡ (first || second) }
{
    first || second
}

// Whether the conditional's first branch is taken.
fn is_taken(macros: &Macros, wanted: bool, name: &[u8]) -> bool
    ensures { result ≡ spec.is_taken wanted name.now (texts macros.now) }
{
    if wanted {
        macros.has(name)
    } else {
        !macros.has(name)
    }
}

/// Begins a conditional in a branch that counts or not, and tells whether its first branch counts.
pub fn begin(
    macros: &Macros,
    frames: &mut Vec<Frame>,
    live: bool,
    wanted: bool,
    name: &[u8],
) -> Result<bool, AllocError>
    ensures inside { IfOk result (λ inside. inside ≡ (live && spec.is_taken wanted name.now (texts macros.now))) }
    ensures begun { OnOk result (frames.new.items ≡ frames.old.items ++ reached.first_branch live (spec.is_taken wanted name.now (texts macros.now)) ∷ []) }
{
    let taken = is_taken(macros, wanted, name);
    let inside = both(live, taken);
    frames.push(Frame {
        live,
        taken,
        last: false,
    })?;
    Ok(inside)
}

// Ends a conditional, and tells whether the branch round it counts.
fn close(frames: &mut Vec<Frame>, first: &Lined, after: &[Lined]) -> Result<bool, ItemErr>
    requires { roles.role_of first.now.token ≡ role.Endif }
    ensures ends { IfOk result (λ live. (macros : spec.Macros) → reached.Turns macros (reverse frames.old.items) first.now after.now live (reverse frames.new.items) after.now) }
    ensures refused { IfErr result (IfRefused (reached.IsMisplaced (reverse frames.old.items) first.now after.now)) }
{
    let Some(frame) = frames.pop() else {
        return Err(ItemErr::Refused(refusals::UNBALANCED));
    };
    Ok(frame.live)
}

// Begins a conditional's last branch, and tells whether it counts.
fn begin_last(frames: &mut Vec<Frame>, first: &Lined, after: &[Lined]) -> Result<bool, ItemErr>
    requires { roles.role_of first.now.token ≡ role.Else }
    ensures ends { IfOk result (λ live. (macros : spec.Macros) → reached.Turns macros (reverse frames.old.items) first.now after.now live (reverse frames.new.items) after.now) }
    ensures refused { IfErr result (IfRefused (reached.IsMisplaced (reverse frames.old.items) first.now after.now)) }
{
    let Some(frame) = frames.pop() else {
        return Err(ItemErr::Refused(refusals::UNBALANCED));
    };
    if frame.last {
        return Err(ItemErr::Refused(refusals::UNBALANCED));
    }
    let inside = both(frame.live, !frame.taken);
    frames.push(Frame {
        live: frame.live,
        taken: true,
        last: true,
    })?;
    Ok(inside)
}

// Begins one more branch of a conditional, and tells whether it counts, and what stands behind its name.
fn begin_next<'a>(
    macros: &Macros,
    frames: &mut Vec<Frame>,
    first: &Lined,
    after: &'a [Lined],
) -> Result<(bool, &'a [Lined]), ItemErr>
    requires { roles.role_of first.now.token ≡ role.Elsif }
    ensures ends { IfOk result (λ r. reached.Turns (texts macros.now) (reverse frames.old.items) first.now after.now r.0 (reverse frames.new.items) r.1.now) }
    ensures refused { IfErr result (IfRefused (reached.IsMisplaced (reverse frames.old.items) first.now after.now)) }
{
    let Some(frame) = frames.pop() else {
        return Err(ItemErr::Refused(refusals::UNBALANCED));
    };
    if frame.last {
        return Err(ItemErr::Refused(refusals::UNBALANCED));
    }
    let Some((name, behind)) = after.split_first() else {
        return Err(ItemErr::Refused(refusals::BAD_TOKEN));
    };
    if !is_word(&name.token) {
        return Err(ItemErr::Refused(refusals::BAD_TOKEN));
    }
    let holds = macros.has(name.token.text.bytes());
    let untaken = both(frame.live, !frame.taken);
    let inside = both(untaken, holds);
    let taken = either(frame.taken, holds);
    frames.push(Frame {
        live: frame.live,
        taken,
        last: false,
    })?;
    Ok((inside, behind))
}

/// Ends a branch at a directive, and tells whether the next one counts, and what stands behind.
pub fn turn<'a>(
    macros: &Macros,
    frames: &mut Vec<Frame>,
    first: &Lined,
    after: &'a [Lined],
) -> Result<(bool, &'a [Lined]), ItemErr>
    requires { roles.ends_branch (roles.role_of first.now.token) ≡ true }
    ensures ends { IfOk result (λ r. reached.Turns (texts macros.now) (reverse frames.old.items) first.now after.now r.0 (reverse frames.new.items) r.1.now) }
    ensures refused { IfErr result (IfRefused (reached.IsMisplaced (reverse frames.old.items) first.now after.now)) }
{
    match role_of(&first.token) {
        Role::Endif => {
            let live = close(frames, first, after)?;
            Ok((live, after))
        }
        Role::Else => {
            let live = begin_last(frames, first, after)?;
            Ok((live, after))
        }
        Role::Elsif => begin_next(macros, frames, first, after),
        _ => unreachable!(),
    }
}
