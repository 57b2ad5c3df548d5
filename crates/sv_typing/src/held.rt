// Two values that are made each by itself.
ghost use Rattle.std.specs.Prelude.{◌≡◌, ◌⊎◌, Ok, Err, IfOk, IfErr};

use items::both;

/// Two values that were made each by itself, or why the first of them that was refused is. It is generic as `both` is, so that
/// a function that makes one tree of two holds none of them where it hands on an error.
pub(crate) fn both_made<A: Drop, B: Drop, E: Drop>(
    first: Result<A, E>,
    second: Result<B, E>,
) -> Result<(A, B), E>
    ensures pair { IfOk result (λ p. (first ≡ Ok p.0) × (second ≡ Ok p.1)) }
    ensures stops { IfErr first (λ e. result ≡ Err e) }
    ensures failed { IfErr result (λ e. (first ≡ Err e) ⊎ (second ≡ Err e)) }
{
    match first {
        Ok(first) => both(first, second),
        Err(e) => Err(e),
    }
}
