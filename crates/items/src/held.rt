// A value that is held while the next one is made.
ghost use Rattle.std.specs.Prelude.{◌≡◌, Ok, Err, IfOk, IfErr};

/// What was made before, with what is made behind it. Where the second could not be made, the first is dropped here, so that a
/// function that hands the error on with `?` holds nothing then: its meaning, and with it its proof, stays small.
pub fn both<A: Drop, B, E>(first: A, rest: Result<B, E>) -> Result<(A, B), E>
    ensures pair { IfOk result (λ p. (p.0 ≡ first) × (rest ≡ Ok p.1)) }
    ensures failed { IfErr result (λ e. rest ≡ Err e) }
{
    match rest {
        Ok(rest) => Ok((first, rest)),
        Err(e) => Err(e),
    }
}
