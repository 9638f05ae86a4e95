// The table of three words.
ghost use Rattle.std.specs.Prelude.{◌≡◌};

use crate::keeper::Keeper;
use crate::rule::Leases;
use crate::view::{Key, View};
use atomic_table::Table;
use std::alloc::Global;

/// The three words, which threads share by reference.
#[derive(Drop)]
pub struct Words<K: Keeper> {
    pub(crate) table: Table<(), View, Key, Leases<K>, Global>,
    ghost sized: { (table.shared.table_id.words ≡ 3) × (table.shared.table_id.slots ≡ 0) },
}
