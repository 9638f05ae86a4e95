// Which store it is.
ghost use Rattle.std.specs.Prelude.{ℕ, List, []};

use std::marker::Brand;

/// Names one store: the table of its words, its total of units, the number of its passes, the unit that it began at, the
/// id of its files, and its disk as it was then. It ties what stands behind the lock to the words beside it.
pub trait LeaseName {
    ghost use Rattle.atomic_table.specs.Seated.{TableId};
    ghost use Rattle.zk_port.specs.Disks.{DiskState};

    ghost table: { TableId };

    ghost total: { ℕ };

    ghost passes: { ℕ };

    ghost base: { ℕ };

    ghost id: { List ℕ };

    ghost start: { DiskState };
}

impl LeaseName for Brand {
    ghost use Rattle.lease_store.specs.Desks.{no_disk, no_table};

    ghost table = { no_table };

    ghost total = { 0 };

    ghost passes = { 0 };

    ghost base = { 0 };

    ghost id = { [] };

    ghost start = { no_disk };
}
