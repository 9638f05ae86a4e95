// A file that lives through crashes.
ghost use Rattle.std.specs.Prelude.{◌≡◌, ◌≤◌, ◌+◌, ◌-◌, ◌^◌, ◌∷◌, [], ℕ, List, length, take, drop, min, IfSome, IfOk, OnOk, OnErr};
ghost use Rattle.std.specs.Option.{option_map};
ghost use Rattle.zk_port.specs.Counts.{HasDiskCause};
ghost use Rattle.zk_port.specs.Disks.{DiskState, Stays, Steps};
ghost use Rattle.zk_port.specs.Logs.{appended, NotesOnce};
ghost use Rattle.zk_port.specs.Images.{written_at, IsTorn, StepsBy, HasDiskRoom, Only};

use crate::access::Access;
use crate::fault::Failed;

/// A file that lives through crashes. Each call may fail; its count of faults rises in that call alone.
///
/// Between two syncs that succeed every range that a write named, a failed one too, and what lies past the
/// old end may hold any bytes after a crash. Other bytes stay.
pub trait Disk {
    /// The content and what crashes may leave or might have left.
    ghost state: { Self → DiskState };

    /// How often a call has failed; a count at the end of its type stays there.
    fn faults(&self) -> u64
        ensures { result ≡ (state self.now).faults };

    /// Takes the file of this name from now on, before the first read or write: for this disk alone, or for reads beside others. Where
    /// another has it otherwise, it is not taken. No file is made.
    fn choose(&mut self, name: &str, access: Access) -> Result<(), Failed>
        ensures chosen { OnOk result ((state self.new).chosen
            ≡ appended ((name.now, access) ∷ []) (state self.old).chosen) }
        ensures refused { OnErr result
            (NotesOnce (name.now, access) (state self.old).chosen (state self.new).chosen) }
        ensures stays { Stays (record (state self.old) { chosen = (state self.new).chosen })
            (state self.new) }
        ensures cause { HasDiskCause (state self.old).faults (state self.new).faults result };

    /// Reads bytes from place `at` on into the front of the buffer, and says how many: fewer than the
    /// buffer holds only at the end of the file. No place that is asked for lies at 2^63 or behind, where no file has one.
    fn read(&mut self, at: u64, buffer: &mut [u8]) -> Result<usize, Failed>
        requires { at + length buffer.old ≤ 2 ^ 63 }
        ensures count { IfOk result (λ n. n ≤ length buffer.old) }
        ensures end { IfOk result (λ n. IfSome (state self.old).content
            (λ c. n ≡ min (length buffer.old) (length c - at))) }
        ensures bytes { IfOk result (λ n. IfSome (state self.old).content
            (λ c. take n buffer.new ≡ take n (drop at c))) }
        ensures rest { IfOk result (λ n. drop n buffer.new ≡ drop n buffer.old) }
        ensures stays { Stays (state self.old) (state self.new) }
        ensures cause { HasDiskCause (state self.old).faults (state self.new).faults result };

    /// Writes these bytes over those from place `at` on, also past the end; zeros then stand between the old
    /// end and a place after it. No bytes change nothing. Until a sync, a crash may leave any bytes in that
    /// range and past the old end, as the call's failure may.
    fn write_at(&mut self, at: u64, bytes: &[u8]) -> Result<(), Failed>
        requires room { HasDiskRoom (at + length bytes.now) (state self.old).room }
        requires place { at + length bytes.now ≤ 2 ^ 63 }
        ensures written { OnOk result ((state self.new).content
            ≡ option_map (written_at at bytes.now) (state self.old).content) }
        ensures torn { OnErr result
            (StepsBy (IsTorn at (length bytes.now)) (state self.old).content (state self.new).content) }
        ensures steps { Steps (IsTorn at (length bytes.now)) (state self.old) (state self.new) }
        ensures cause { HasDiskCause (state self.old).faults (state self.new).faults result };

    /// Once it has succeeded, a crash leaves what a read gives.
    fn sync(&mut self) -> Result<(), Failed>
        ensures durable { OnOk result (Only (state self.old).content (state self.new).images) }
        ensures stays { Stays (state self.old) (state self.new) }
        ensures cause { HasDiskCause (state self.old).faults (state self.new).faults result };

    /// This moment is one of those since an earlier one.
    ghost counts_now: { (disk : Self) (t : ℕ) (c : List ℕ) → t ≤ (state disk).moment
        → (state disk).images c → (state disk).images_since t c };

    /// Since this moment there is no other.
    ghost only_now: { (disk : Self) (c : List ℕ) → (state disk).images_since (state disk).moment c
        → (state disk).images c };
}
