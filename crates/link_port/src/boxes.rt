// Values on the heap.
ghost use Rattle.std.specs.Prelude.{◌≡◌, IfOk};

use crate::refusals::Memory;
use std::alloc::Global;
use std::boxed::Box as Heap;
use std::marker::Model;
use std::ops::Deref;

/// A value on the heap, which contracts see as the value itself.
#[derive(Debug, Drop)]
pub struct Box<T> {
    inner: Heap<T>,
}

impl<T> Model for Box<T> {
    ghost Value = { T };

    ghost coded = { T.code };

    ghost view = { λ b. b.inner.value };
}

impl<T> Box<T> {
    /// Lends the value.
    pub fn get(&self) -> &T
        ensures { result.now ≡ self.now }
    {
        &self.inner
    }

    /// Takes the value out.
    pub fn into_inner(self) -> T
        ensures { result ≡ self }
    {
        let Box { inner } = self;
        Heap::into_inner(inner)
    }
}

impl<T: Drop> Box<T> {
    /// Puts the value on the heap.
    pub fn new(alloc: Global, value: T) -> Result<Box<T>, Memory>
        ensures { IfOk result (λ b. b ≡ value) }
    {
        match Heap::new(alloc, value) {
            Ok(inner) => Ok(Box { inner }),
            Err(_) => Err(Memory),
        }
    }
}

impl<T> Deref for Box<T> {
    type Target = T;

    ghost deref_gives = { λ b x. x ≡ b };

    fn deref(&self) -> &T {
        self.get()
    }
}
