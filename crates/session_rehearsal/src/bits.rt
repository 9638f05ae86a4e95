// A list of bits.
ghost use Rattle.std.specs.Prelude.{◌≡◌, IfOk};

use std::alloc::{AllocError, Global};
use std::marker::Model;

/// A list of bits.
#[derive(Debug, Drop)]
pub struct Bits {
    items: Vec<bool>,
}

impl Model for Bits {
    ghost use Rattle.std.specs.Prelude.{List, Bool};

    ghost Value = { List Bool };

    ghost view = { λ b. b.items.items };
}

impl Bits {
    /// The bits of this list.
    pub fn new(items: Vec<bool>) -> Self
        ensures { result ≡ items.items }
    {
        Bits { items }
    }

    /// The same bits, in memory of their own.
    pub fn copied(alloc: Global, bits: &[bool]) -> Result<Self, AllocError>
        ensures { IfOk result (λ b. b ≡ bits.now) }
    {
        let items = bits.to_vec(alloc)?;
        Ok(Bits { items })
    }

    /// The bits, in order.
    pub fn as_slice(&self) -> &[bool]
        ensures { result.now ≡ self.now }
    {
        &self.items
    }
}
