//! A value that nobody changes, so that many may hold it behind one pointer.
ghost use Rattle.std.specs.Prelude.{◌≡◌, IfOk, IsOkUnless};

use crate::error::{Fail, Result};
use std::alloc::{AllocError, Global};
use std::marker::Model;
use std::sync::Arc;

/// A value that nobody changes. A contract sees the value.
#[derive(Drop)]
pub struct Shared<T> {
    value: Arc<T>,
}

impl<T> Model for Shared<T> {
    ghost use Rattle.std.specs.Arc.{arc_value};

    ghost Value = { T };

    ghost view = { λ s. arc_value s.value };
}

impl<T: Drop> Shared<T> {
    /// Holds the value. Without memory it is gone.
    #[inline(always)]
    pub fn new(alloc: Global, value: T) -> Result<Shared<T>>
        ensures ok { IfOk result (λ shared. shared ≡ value) }
        ensures memory { IsOkUnless result Fail.OutOfMemory }
    {
        let value = Arc::new(alloc, value).map_err(AllocError::from)?;
        Ok(Shared { value })
    }

    /// The value.
    #[inline(always)]
    pub fn get(&self) -> &T
        ensures { result.now ≡ self.now }
    {
        &self.value
    }

    /// The same value for one more holder. Nothing of it is copied.
    #[inline(always)]
    pub fn copy(&self) -> Result<Shared<T>>
        ensures ok { IfOk result (λ copy. copy ≡ self.now) }
        ensures memory { IsOkUnless result Fail.OutOfMemory }
    {
        let value = self.value.clone()?;
        Ok(Shared { value })
    }
}
