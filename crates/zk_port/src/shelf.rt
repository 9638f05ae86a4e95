// Whole files by name.
ghost use Rattle.std.specs.Prelude.{◌≡◌, ℕ, List, length, ◌≤◌, IfOk, IfErr, OnOk, OnErr, IsFalse};
ghost use Rattle.zk_port.specs.Counts.{HasCause, CountsNames, is_failed, is_load_failed};
ghost use Rattle.zk_port.specs.Files.{OthersStay, StandsAs, LoadCause};
ghost use Rattle.zk_port.specs.Shelves.{ShelfState, stored_on};

use crate::fault::{LoadFault, PortFault};
use std::alloc::Global;

/// A place of whole files by name.
pub trait Shelf {
    /// The files, and how often a call has failed.
    ghost state: { Self → ShelfState };

    /// How often a call has failed; a count at the end of its type stays there.
    fn faults(&self) -> u64
        ensures { result ≡ (state self.now).faults };

    /// The bytes of the file of this name, if they are at most `limit`. A missing file is `Failed`; one
    /// of more bytes is `TooLong`, with this limit, unless the outside fails or memory is missing first.
    fn load(&mut self, alloc: Global, name: &str, limit: u64) -> Result<Vec<u8>, LoadFault>
        ensures stays { IsFalse (is_load_failed result) → state self.new ≡ state self.old }
        ensures told_kept { (state self.new).told ≡ (state self.old).told }
        ensures bytes { IfOk result (λ v. StandsAs (state self.old).told name.now v.items) }
        ensures fits { IfOk result (λ v. length v.items ≤ limit) }
        ensures cause { IfErr result (LoadCause (state self.old).told name.now limit
            (state self.old).faults (state self.new).faults) }
        ensures cause_of_name { IfErr result (LoadCause (state self.old).told name.now limit
            ((state self.old).faults_of name.now) ((state self.new).faults_of name.now)) }
        ensures faults_grow { (state self.old).faults ≤ (state self.new).faults }
        ensures names { CountsNames (is_load_failed result) name.now
            (state self.old).faults_of (state self.new).faults_of };

    /// Puts these bytes under the name, in place of what was there. A refused store may leave anything
    /// there, and changes no other file.
    fn store(&mut self, alloc: Global, name: &str, bytes: &[u8]) -> Result<(), PortFault>
        ensures stored { OnOk result (state self.new ≡ stored_on name.now bytes.now (state self.old)) }
        ensures refused { OnErr result (OthersStay name.now (state self.old).told (state self.new).told) }
        ensures cause { HasCause (state self.old).faults (state self.new).faults result }
        ensures names { CountsNames (is_failed result) name.now
            (state self.old).faults_of (state self.new).faults_of };
}
