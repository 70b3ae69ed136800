// A value on the heap with one owner.
ghost use Rattle.std.specs.Prelude.{◌≡◌, IfOk, IfErr};

use std::alloc::{AllocFailed, Global};
use std::marker::Model;
use std::ops::Deref;

/// A value on the heap. It takes eight bytes where it is held.
#[derive(Drop)]
pub struct Boxed<T> {
    held: Box<T, Global>,
}

const _: () = prove!(size_of::<Boxed<u64>>() == 8);

impl<T> Model for Boxed<T> {
    ghost Value = { T };

    ghost coded = { T.code };

    ghost view = { λ it. it.held.value };
}

impl<T> Boxed<T> {
    /// A value on the heap. Want of memory gives the value back.
    pub fn new(alloc: Global, value: T) -> Result<Boxed<T>, AllocFailed<T>>
        ensures ok { IfOk result (λ it. it ≡ value) }
        ensures err { IfErr result (λ failed. failed.value ≡ value) }
    {
        let held = Box::new(alloc, value)?;
        Ok(Boxed { held })
    }

    /// The value itself. It takes no memory.
    pub fn into_value(self) -> T
        ensures { result ≡ self }
    {
        Box::into_inner(self.held)
    }
}

impl<T> Deref for Boxed<T> {
    type Target = T;

    ghost deref_gives = { λ it value. value ≡ it };

    fn deref(&self) -> &T
        ensures { result.now ≡ self.now }
    {
        self.held.as_ref()
    }
}
