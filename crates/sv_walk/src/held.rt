// Values that are held.
ghost use Rattle.std.specs.Prelude.{◌≡◌, Ok, Err, IfOk, IfErr};

/// A value, where what was done with it came to its end. Else it is dropped here, and the caller holds nothing at an exit.
pub(crate) fn after<T: Drop, E>(value: T, done: Result<(), E>) -> Result<T, E>
    ensures ok { IfOk result (λ x. (x ≡ value) × (done ≡ Ok (tt {0}))) }
    ensures err { IfErr result (λ e. done ≡ Err e) }
{
    match done {
        Ok(()) => Ok(value),
        Err(why) => Err(why),
    }
}
