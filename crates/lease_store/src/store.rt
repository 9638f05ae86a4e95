// A store that threads share.
ghost use Rattle.std.specs.Prelude.{◌≡◌, length, All};
ghost use Rattle.lease_store.specs.Leases.{IsClosed, IsPassAt};

use crate::ceilings::CeilingJournal;
use crate::desk::Desk;
use crate::name::LeaseName;
use lease_words::{Pass, Words};
use std::marker::Model;
use std::sync::Mutex;
use zk_port::Disk;

/// A store of units, which threads share by reference: each leases with a pass of its own. Contracts see of it the
/// first unit of its era (`StoreState`).
#[derive(Drop)]
pub struct LeaseStore<B: Disk, N: LeaseName> {
    pub(crate) words: Words<CeilingJournal<B>>,
    pub(crate) desk: Mutex<Desk<B, N>>,
}

impl<B: Disk, N: LeaseName> Model for LeaseStore<B, N> {
    ghost use Rattle.std.specs.Prelude.{◌≡◌};
    ghost use Rattle.lease_words.specs.Calls.{base_of, words_id};
    ghost use Rattle.lease_store.specs.States as model;

    ghost Value = { model.StoreState };

    ghost view = { λ s. record { base = base_of s.words } };

    ghost invariant = { λ s. (words_id s.words ≡ N.table) × (base_of s.words ≡ N.base) };
}

impl<B: Disk, N: LeaseName> LeaseStore<B, N> {
    /// Ends the store, with all its passes, and gives the disk as it stands.
    pub fn close(self, passes: Vec<Pass>) -> B
        requires own { All (IsPassAt N.table N.total) passes.items }
        requires all { length passes.items ≡ N.passes }
        ensures { IsClosed N.start (B.state result) N.id self.base N.total passes.items }
    {
        let LeaseStore { words, desk } = self;
        let seat = desk.into_inner().into_seat();
        let CeilingJournal { journal, .. } = words.gather(seat, passes);
        journal.into_disk()
    }
}
