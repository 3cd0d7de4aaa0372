//! Shared lists of numbers.
ghost use Rattle.std.specs.Prelude.{◌≡◌, IfOk};

use std::alloc::{AllocError, Global};
use std::marker::Model;
use std::sync::Arc;

/// A list of numbers that cannot be changed and is shared by its copies.
#[derive(Drop)]
pub struct Numbers {
    items: Arc<Vec<u32>>,
}

impl Model for Numbers {
    ghost use Rattle.std.specs.Prelude.{ℕ, List};

    ghost Value = { List ℕ };

    ghost view = { λ a. a.items.value.items };
}

impl Numbers {
    /// The list of these numbers, which are moved and not copied.
    pub fn from_vec(alloc: Global, items: Vec<u32>) -> Result<Numbers, AllocError>
        ensures { IfOk result (λ numbers. numbers ≡ items.items) }
    {
        let items = Arc::new(alloc, items)?;
        Ok(Numbers { items })
    }

    /// The numbers, in order.
    pub fn as_slice(&self) -> &[u32]
        ensures { result.now ≡ self.now }
    {
        self.items.as_slice()
    }

    /// Another owner of the same list.
    pub fn copy(&self) -> Result<Numbers, AllocError>
        ensures { IfOk result (λ copy. copy ≡ self.now) }
    {
        let items = Arc::try_clone(&self.items)?;
        Ok(Numbers { items })
    }
}
