// Files in memory.
ghost use Rattle.std.specs.Prelude.{Some, ◌≡◌, ◌≤◌, ◌+◌, ℕ, List, length, OnOk, OnErr, IfOk, IfErr, IsErrOf};
ghost use Rattle.std.specs.Option.{option_map};
ghost use Rattle.zk_port.specs.Counts.{HasCause, CountsNames, is_failed, is_load_failed};
ghost use Rattle.zk_port.specs.Files.{OthersStay, StandsAs, LoadCause, stored};
ghost use Rattle.memory_ports.specs.Plans.{file_of, found, without, load_fails, LoadTells, StoreLeaves, UsesCall};

use crate::plan::FaultPlan;
use std::alloc::{AllocError, Global};
use std::collections::BTreeMap;
use zk_port::{LoadFault, PortFault, Shelf};

/// Files in memory. Exactly the calls that the plan names fail, and loads of files that aren't there, unless
/// by the plan nothing may fail. A store that fails takes the file away. One count serves all names. A call that by the plan finds no
/// memory is refused for that: a load where it would give a file, a store where it does not fail.
#[derive(Drop)]
pub struct MemoryShelf<P> {
    files: BTreeMap<String, Vec<u8>>,
    plan: P,
}

impl<P: FaultPlan> MemoryShelf<P> {
    /// A shelf of these files. Under a plan by which nothing may fail, a missing file is read as empty.
    pub fn new(files: BTreeMap<String, Vec<u8>>, plan: P) -> Self
        ensures state { ⟦<MemoryShelf<P> as Shelf>⟧.state result ≡ record {
          told = Some (λ name. found P.forgiving (file_of files name));
          faults = P.count plan;
          faults_of = λ _. P.count plan;
        } }
        ensures plan { result.plan ≡ plan }
    {
        MemoryShelf { files, plan }
    }
}

/// Puts these bytes under the name; without memory for them nothing changes.
fn put_file(
    alloc: Global,
    files: &mut BTreeMap<String, Vec<u8>>,
    name: &str,
    bytes: &[u8],
) -> Result<(), AllocError>
    ensures stored { OnOk result ((other : List ℕ) → file_of files.new other
        ≡ stored name.now bytes.now (file_of files.old) other) }
    ensures refused { OnErr result ((other : List ℕ) →
        file_of files.new other ≡ file_of files.old other) }
{
    let key = String::from_str(alloc, name)?;
    let value = bytes.to_vec(alloc)?;
    files.insert(key, value)?;
    Ok(())
}

/// Takes the file of this name away.
fn take_file(files: &mut BTreeMap<String, Vec<u8>>, name: &str)
    ensures { (other : List ℕ) → file_of files.new other ≡ without name.now (file_of files.old) other }
{
    files.remove(name);
}

impl<P: FaultPlan> Shelf for MemoryShelf<P> {
    ghost use Rattle.std.specs.Prelude.{Some};
    ghost use Rattle.memory_ports.specs.Plans.{file_of, found};

    ghost state = { λ s. record {
      told = Some (λ name. found P.forgiving (file_of s.files name));
      faults = P.count s.plan;
      faults_of = λ _. P.count s.plan;
    } };

    fn faults(&self) -> u64 {
        self.plan.faults()
    }

    fn load(&mut self, alloc: Global, name: &str, limit: u64) -> Result<Vec<u8>, LoadFault>
        ensures told_kept { self.new.files ≡ self.old.files }
        ensures tells { LoadTells limit (found P.forgiving (file_of self.old.files name.now)) result }
        ensures fails { is_load_failed result ≡ load_fails (P.coming self.old.plan 0)
            (found P.forgiving (file_of self.old.files name.now)) }
        ensures plan { UsesCall P.coming P.count (is_load_failed result) self.old.plan self.new.plan }
    {
        if self.plan.fails() {
            return Err(LoadFault::Failed);
        }
        match self.files.get(name) {
            Some(bytes) => {
                if bytes.len() as u64 > limit {
                    return Err(LoadFault::TooLong { limit });
                }
                if self.plan.lacks() {
                    return Err(LoadFault::NoMemory);
                }
                Ok(bytes.to_vec(alloc)?)
            }
            None => {
                if self.plan.fails_without() {
                    return Err(LoadFault::Failed);
                }
                Ok(Vec::new(alloc))
            }
        }
    }

    fn store(&mut self, alloc: Global, name: &str, bytes: &[u8]) -> Result<(), PortFault>
        ensures leaves { StoreLeaves name.now bytes.now (file_of self.old.files)
            (file_of self.new.files) result }
        ensures fails { is_failed result ≡ P.coming self.old.plan 0 }
        ensures plan { UsesCall P.coming P.count (is_failed result) self.old.plan self.new.plan }
    {
        if self.plan.fails() {
            take_file(&mut self.files, name);
            return Err(PortFault::Failed);
        }
        if self.plan.lacks() {
            return Err(PortFault::NoMemory);
        }
        put_file(alloc, &mut self.files, name, bytes)?;
        Ok(())
    }
}
