ghost use Rattle.std.specs.Prelude.{◌≡◌, ◌<◌, ◌++◌, ◌∷◌, [], OnOk, OnErr, IfOk, length, slice_get};

use std::alloc::{AllocError, Global};
use std::marker::Model;

/// A vector that contracts see as its list.
#[derive(Drop)]
pub struct Items<T> {
    inner: Vec<T>,
}

impl<T> Model for Items<T> {
    ghost use Rattle.std.specs.Prelude.{List as Seq};

    ghost Value = { Seq T };

    ghost view = { λ a. a.inner.items };
}

impl<T> Items<T> {
    pub fn new(alloc: Global) -> Self
        ensures { result ≡ [] }
    {
        Items {
            inner: Vec::new(alloc),
        }
    }

    pub fn from_vec(inner: Vec<T>) -> Self
        ensures { result ≡ inner.items }
    {
        Items { inner }
    }

    pub fn into_vec(self) -> Vec<T>
        ensures { result.items ≡ self }
    {
        let Items { inner } = self;
        inner
    }

    pub fn len(&self) -> usize
        ensures { result ≡ length self.now }
    {
        self.inner.len()
    }

    pub fn as_slice(&self) -> &[T]
        ensures { result.now ≡ self.now }
    {
        self.inner.as_slice()
    }

    /// Appends a value. Without memory the list is as it was.
    pub fn push(&mut self, value: T) -> Result<(), AllocError>
    where
        T: Drop,
        ensures ok { OnOk result (self.new ≡ self.old ++ value ∷ []) }
        ensures err { OnErr result (self.new ≡ self.old) }
    {
        self.inner.push(value)?;
        Ok(())
    }
}

/// The list of one value.
pub fn one<T: Drop>(alloc: Global, value: T) -> Result<Items<T>, AllocError>
    ensures { IfOk result (λ items. items ≡ value ∷ []) }
{
    let mut inner = Vec::new(alloc);
    inner.push(value)?;
    Ok(Items::from_vec(inner))
}
