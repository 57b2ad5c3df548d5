// What is made of what a rule reads: a box, or a list. Each call takes the outcome as the rule gives it and hands a refusal on,
// so that the rule itself has one exit less while it holds what it has read before.
ghost use Rattle.std.specs.Prelude.{◌≡◌, ◌≢◌, ◌∷◌, ◌++◌, [], List, Ok, Err, IfOk, IfErr};
ghost use Rattle.sv_cursor.specs.declared.error.ParseErr.TheVariants.{Memory};

use items::{Boxed, Items};
use std::alloc::{AllocError, Global};
use sv_cursor::ParseErr;

/// What was read, in a box.
pub fn boxed<A: Drop>(alloc: Global, part: Result<A, ParseErr>) -> Result<Boxed<A>, ParseErr>
    ensures made { IfOk result (λ held. part ≡ Ok held) }
    ensures failed { IfErr result (λ e. e ≢ Memory → part ≡ Err e) }
{
    let held = Boxed::new(alloc, part?)?;
    Ok(held)
}

/// A part, and those that follow it.
pub fn with_first<A: Drop>(alloc: Global, first: A, more: Items<A>) -> Result<Items<A>, AllocError>
    ensures { IfOk result (λ all. all ≡ first ∷ more) }
{
    let mut all = Items::new(alloc);
    all.push(first)?;
    all.append(more)?;
    Ok(all)
}

/// A part, and those that were read behind it.
pub fn with_more<A: Drop>(
    alloc: Global,
    first: A,
    more: Result<Items<A>, ParseErr>,
) -> Result<Items<A>, ParseErr>
    ensures made { IfOk result (λ all. (rest : List A) × (more ≡ Ok rest) × (all ≡ first ∷ rest)) }
    ensures failed { IfErr result (λ e. e ≢ Memory → more ≡ Err e) }
{
    let all = with_first(alloc, first, more?)?;
    Ok(all)
}

/// Puts what was read at the end of a list.
pub fn keep<A: Drop>(found: &mut Items<A>, part: Result<A, ParseErr>) -> Result<(), ParseErr>
    ensures kept { IfOk result (λ _. (x : A) × (part ≡ Ok x) × (found.new ≡ found.old ++ x ∷ [])) }
    ensures failed { IfErr result (λ e. e ≢ Memory → part ≡ Err e) }
{
    found.push(part?)?;
    Ok(())
}
