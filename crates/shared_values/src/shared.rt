// A value on the heap with several owners.
ghost use Rattle.std.specs.Prelude.{◌≡◌, IfOk};

use std::alloc::{AllocError, Global};
use std::marker::Model;
use std::ops::Deref;
use std::rc::Rc;

/// A value that several owners hold and none changes. It goes with the last of them.
#[derive(Drop)]
pub struct Shared<T> {
    pointer: Rc<T>,
}

impl<T> Model for Shared<T> {
    ghost Value = { T };

    ghost coded = { T.code };

    ghost view = { λ it. it.pointer.value };
}

impl<T: Drop> Shared<T> {
    /// A value with one owner. Want of memory drops the value.
    pub fn new(alloc: Global, value: T) -> Result<Shared<T>, AllocError>
        ensures { IfOk result (λ it. it ≡ value) }
    {
        match Rc::new(alloc, value) {
            Ok(pointer) => Ok(Shared { pointer }),
            Err(_) => Err(AllocError),
        }
    }

    /// One more owner of the value. That there are as many owners as can be counted counts as want of memory.
    pub fn share(&self) -> Result<Shared<T>, AllocError>
        ensures { IfOk result (λ it. it ≡ self.now) }
    {
        let pointer = self.pointer.clone()?;
        Ok(Shared { pointer })
    }
}

impl<T> Deref for Shared<T> {
    type Target = T;

    ghost deref_gives = { λ it value. value ≡ it };

    fn deref(&self) -> &T
        ensures { result.now ≡ self.now }
    {
        self.pointer.as_ref()
    }
}
