// How many units of a dealt file are used.
ghost use Rattle.std.specs.Prelude.{◌≡◌, ◌-◌, ◌≤◌, ℕ, List, Some, IfOk, IfErr, sum_by};
ghost use Rattle.claim_store.specs.ClaimedRanges.{RiseFrom};
ghost use Rattle.claim_store.specs.Claims.{AreClaims};
ghost use Rattle.lease_store.specs.Ceilings.{SaysCeiling};
ghost use Rattle.file_commands.specs.Journals.{IsCeilingsFault, IsClaimsFault, IsJournalDisk, JournalStop};
ghost use Rattle.file_commands.specs.Journals.{OnlyReads, OpensJournal, disk_change, node_journal_name, read_journal};
ghost use Rattle.zk_port.specs.declared.access.Access.TheVariants.{Read};
ghost use Rattle.status_command.specs.StatusRuns.{IsJournalFault, SaysClaimed, SaysUsed, dealing_of, node_of, status_journal, units_of};

use crate::dealing::DealtFile;
use dealer_files::{ProverFile, VerifierFile};
use file_commands::{Refusal, open_ceilings, open_claims, open_node_claims};
use std::alloc::Global;
use zk_model::Span;
use zk_port::{Access, Disk};

/// How many units these ranges have, which rise up to the total.
fn units_in(ranges: &[Span], total: u64) -> u64
    requires rising { RiseFrom 0 ranges.now }
    requires claims { AreClaims total ranges.now }
    ensures units { result ≡ sum_by units_of ranges.now }
    ensures within { result ≤ total }
{
    let mut units = 0;
    for range in ranges {
        units += range.end - range.start;
    }
    units
}

/// How many units of this prover's file the claims in its journal take, and the disk.
fn claimed_units<B: Disk>(
    alloc: Global,
    journal: B,
    name: &str,
    file: &ProverFile,
) -> Result<(u64, B), (Refusal, B)>
    requires disk { IsJournalDisk (B.state journal) }
    ensures opens { IfOk result (λ r. OpensJournal (read_journal name.now)
        (disk_change (B.state journal) (B.state r.1))) }
    ensures says { IfOk result (λ r. (bytes : List ℕ) → (B.state journal).content ≡ Some bytes
        → SaysClaimed file.now.id file.now.params.total r.0 bytes) }
    ensures within { IfOk result (λ r. r.0 ≤ file.now.params.total) }
    ensures reads { IfErr result (λ e. OnlyReads (read_journal name.now)
        (disk_change (B.state journal) (B.state e.1))) }
    ensures stop { IfErr result (λ e. JournalStop
        (IsClaimsFault file.now.id file.now.params.total (B.state journal))
        (disk_change (B.state journal) (B.state e.1)) e.0) }
{
    let store = match open_claims(alloc, journal, name, Access::Read, file) {
        Ok(store) => store,
        Err(stop) => return Err(stop),
    };
    let used = units_in(store.claims(), file.total());
    Ok((used, store.close()))
}

/// The ceiling that the journal of this verifier's file says, and the disk.
fn leased_units<B: Disk>(
    alloc: Global,
    journal: B,
    name: &str,
    file: &VerifierFile,
) -> Result<(u64, B), (Refusal, B)>
    requires disk { IsJournalDisk (B.state journal) }
    ensures opens { IfOk result (λ r. OpensJournal (read_journal name.now)
        (disk_change (B.state journal) (B.state r.1))) }
    ensures says { IfOk result (λ r. (bytes : List ℕ) → (B.state journal).content ≡ Some bytes
        → SaysCeiling file.now.id file.now.params.total r.0 bytes) }
    ensures within { IfOk result (λ r. r.0 ≤ file.now.params.total) }
    ensures reads { IfErr result (λ e. OnlyReads (read_journal name.now)
        (disk_change (B.state journal) (B.state e.1))) }
    ensures stop { IfErr result (λ e. JournalStop
        (IsCeilingsFault file.now.id file.now.params.total (B.state journal))
        (disk_change (B.state journal) (B.state e.1)) e.0) }
{
    let (parts, _passes) = match open_ceilings(alloc, journal, name, Access::Read, file, 1) {
        Ok(opened) => opened,
        Err(stop) => return Err(stop),
    };
    // no journal that is sound says more than the total
    let used = parts.base().min(file.total());
    Ok((used, parts.into_disk()))
}

/// How many units of this verifier's file the claims in the journal of the node of this number take, and the disk.
fn node_units<B: Disk>(
    alloc: Global,
    journal: B,
    name: &str,
    node: u32,
    file: &VerifierFile,
) -> Result<(u64, B), (Refusal, B)>
    requires disk { IsJournalDisk (B.state journal) }
    ensures opens { IfOk result (λ r. OpensJournal (node_journal_name name.now node, Read)
        (disk_change (B.state journal) (B.state r.1))) }
    ensures says { IfOk result (λ r. (bytes : List ℕ) → (B.state journal).content ≡ Some bytes
        → SaysClaimed file.now.id file.now.params.total r.0 bytes) }
    ensures within { IfOk result (λ r. r.0 ≤ file.now.params.total) }
    ensures reads { IfErr result (λ e. OnlyReads (node_journal_name name.now node, Read)
        (disk_change (B.state journal) (B.state e.1))) }
    ensures stop { IfErr result (λ e. JournalStop
        (IsClaimsFault file.now.id file.now.params.total (B.state journal))
        (disk_change (B.state journal) (B.state e.1)) e.0) }
{
    let store = match open_node_claims(alloc, journal, name, node, Access::Read, file) {
        Ok(store) => store,
        Err(stop) => return Err(stop),
    };
    let used = units_in(store.claims(), file.total());
    Ok((used, store.close()))
}

/// How many units of this dealt file its journal, or the node's, says are used, and the disk.
pub fn read_used<B: Disk>(
    alloc: Global,
    journal: B,
    name: &str,
    file: &DealtFile,
) -> Result<(u64, B), (Refusal, B)>
    requires disk { IsJournalDisk (B.state journal) }
    ensures opens { IfOk result (λ r. OpensJournal (status_journal name.now (node_of file.now))
        (disk_change (B.state journal) (B.state r.1))) }
    ensures says { IfOk result (λ r.
        SaysUsed (node_of file.now) (dealing_of file.now) (B.state journal) r.0) }
    ensures within { IfOk result (λ r. r.0 ≤ (dealing_of file.now).params.total) }
    ensures reads { IfErr result (λ e. OnlyReads (status_journal name.now (node_of file.now))
        (disk_change (B.state journal) (B.state e.1))) }
    ensures stop { IfErr result (λ e. JournalStop
        (IsJournalFault (node_of file.now) (dealing_of file.now) (B.state journal))
        (disk_change (B.state journal) (B.state e.1)) e.0) }
{
    match file {
        DealtFile::Prover(file) => claimed_units(alloc, journal, name, file),
        DealtFile::Verifier(file) => leased_units(alloc, journal, name, file),
        DealtFile::Node(file, node) => node_units(alloc, journal, name, *node, file),
    }
}
