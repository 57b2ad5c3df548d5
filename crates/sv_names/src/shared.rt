ghost use Rattle.std.specs.Prelude.{◌≡◌, IfOk, IfSome};

use std::alloc::{AllocError, Global};
use std::marker::Model;
use std::rc::Rc;

/// One of several owners of a value, which contracts see as the value.
pub struct Shared<T> {
    inner: Rc<T>,
}

impl<T: Drop> Drop for Shared<T> {
    fn drop(self) {
        let Shared { inner: _ } = self;
    }
}

impl<T> Model for Shared<T> {
    ghost Value = { T };

    ghost coded = { T.code };

    ghost view = { λ shared. shared.inner.value };
}

impl<T> Shared<T> {
    pub fn get(&self) -> &T
        ensures { result.now ≡ self.now }
    {
        self.inner.as_ref()
    }
}

impl<T: Drop> Shared<T> {
    /// Where memory is out, the value is let go.
    pub fn new(alloc: Global, value: T) -> Result<Shared<T>, AllocError>
        ensures { IfOk result (λ shared. shared ≡ value) }
    {
        Ok(Shared {
            inner: Rc::new(alloc, value)?,
        })
    }

    /// One owner more. There is none where as many owners are counted as can be; who calls makes a value of its own then.
    pub fn share(&self) -> Option<Shared<T>>
        ensures { IfSome result (λ shared. shared ≡ self.now) }
    {
        match self.inner.clone() {
            Ok(inner) => Some(Shared { inner }),
            Err(_) => None,
        }
    }
}
