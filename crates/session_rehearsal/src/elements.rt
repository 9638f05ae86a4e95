// A list of elements.
ghost use Rattle.std.specs.Prelude.{◌≡◌, IfOk};

use mersenne_field::Fe;
use std::alloc::{AllocError, Global};
use std::marker::Model;

/// A list of elements.
#[derive(Debug, Drop)]
pub struct Elements {
    items: Vec<Fe>,
}

impl Model for Elements {
    ghost use Rattle.std.specs.Prelude.{ℕ, List};

    ghost Value = { List ℕ };

    ghost view = { λ e. e.items.items };
}

impl Elements {
    /// The elements of this list.
    pub fn new(items: Vec<Fe>) -> Self
        ensures { result ≡ items.items }
    {
        Elements { items }
    }

    /// The same elements, in memory of their own.
    pub fn copied(alloc: Global, elements: &[Fe]) -> Result<Self, AllocError>
        ensures { IfOk result (λ e. e ≡ elements.now) }
    {
        let items = elements.to_vec(alloc)?;
        Ok(Elements { items })
    }

    /// The elements, in order.
    pub fn as_slice(&self) -> &[Fe]
        ensures { result.now ≡ self.now }
    {
        &self.items
    }
}
