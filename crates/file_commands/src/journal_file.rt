// The journal of a dealt file.
ghost use Rattle.std.specs.Prelude.{◌≡◌, ◌⊎◌, ◌-◌, ◌^◌, ◌<◌, ◌≤◌, ℕ, List, All, IfOk, IfErr, OnOk, OnErr, length, string_bytes};
ghost use Rattle.claim_store.specs.ClaimedRanges.{RiseFrom};
ghost use Rattle.lease_journal.specs.Twins.{HoldsTwin};
ghost use Rattle.zk_model.specs.declared.JournalKind.TheVariants.{Claims};
ghost use Rattle.zk_model.specs.declared.limits.TheConstants.{MAX_PASSES};
ghost use Rattle.lease_store.specs.Ceilings.{HasCeilingHeader, SaysCeiling};
ghost use Rattle.lease_store.specs.Desks.{Begins};
ghost use Rattle.lease_store.specs.Leases.{IsPassAt};
ghost use Rattle.session_pool.specs.Notes.{IsUnused};
ghost use Rattle.file_commands.specs.Journals.{IsJournalDisk, JournalStop, OpensJournal, OnlyReads, disk_change, journal_name, node_journal_name, start_refusal};
ghost use Rattle.file_commands.specs.Journals.{IsClaimsFault};
ghost use Rattle.file_commands.specs.Journals.{IsCeilingsFault};
ghost use Rattle.zk_port.specs.Counts.{Rose};
ghost use Rattle.zk_port.specs.Images.{Only};
ghost use Rattle.file_commands.specs.declared.refusal.Refusal.TheVariants as stops;
ghost use Rattle.claim_store.specs.Claims.{AreClaims, AreDurable, AreInUse, SaysClaims};

use crate::refusal::Refusal;
use claim_store::ClaimStore;
use dealer_files::{ProverFile, VerifierFile};
use lease_store::{LeaseParts, StoreFault};
use lease_words::Pass;
use std::alloc::{AllocError, Global};
use twin_journal::StartFault;
use zk_port::{Access, Disk};

/// The name of a file's journal.
fn name_of(alloc: Global, file: &str) -> Result<String, AllocError>
    ensures { IfOk result (λ name. string_bytes name ≡ journal_name file.now) }
{
    Ok(format!(in alloc; "{file}.journal")?)
}

/// The name of the journal of claims of the node of this number, which holds the verifier's file of this name.
pub fn node_journal_name(alloc: Global, file: &str, node: u32) -> Result<String, AllocError>
    ensures { IfOk result (λ name. string_bytes name ≡ node_journal_name file.now node) }
{
    Ok(format!(in alloc; "{file}.node.{node}")?)
}

/// Takes the journal of this name from now on.
fn choose_named<B: Disk>(journal: &mut B, name: &str, access: Access) -> Result<(), Refusal>
    ensures opens { OnOk result (OpensJournal (name.now, access)
        (disk_change (B.state journal.old) (B.state journal.new))) }
    ensures reads { OnErr result (OnlyReads (name.now, access)
        (disk_change (B.state journal.old) (B.state journal.new))) }
    ensures stop { IfErr result (λ stop. (stop ≡ stops.JournalFailed (B.state journal.new).faults)
        × Rose (B.state journal.old).faults (B.state journal.new).faults) }
{
    if journal.choose(name, access).is_err() {
        let count = journal.faults();
        return Err(Refusal::JournalFailed { count });
    }
    Ok(())
}

/// Takes the journal of the file of this name from now on.
pub fn choose_journal<B: Disk>(
    alloc: Global,
    journal: &mut B,
    name: &str,
    access: Access,
) -> Result<(), Refusal>
    ensures opens { OnOk result (OpensJournal (journal_name name.now, access)
        (disk_change (B.state journal.old) (B.state journal.new))) }
    ensures reads { OnErr result (OnlyReads (journal_name name.now, access)
        (disk_change (B.state journal.old) (B.state journal.new))) }
    ensures stop { IfErr result (λ stop. (stop ≡ stops.NoMemory)
        ⊎ ((stop ≡ stops.JournalFailed (B.state journal.new).faults)
        × Rose (B.state journal.old).faults (B.state journal.new).faults)) }
{
    let Ok(name) = name_of(alloc, name) else {
        return Err(Refusal::NoMemory);
    };
    choose_named(journal, &name, access)
}

/// Why a journal is not opened on a disk whose calls have failed so often.
pub fn start_stop(fault: StartFault, count: u64) -> Refusal
    ensures { result ≡ start_refusal fault count }
{
    match fault {
        StartFault::Device => Refusal::JournalFailed { count },
        StartFault::Short { need, got } => Refusal::JournalShort { need, got },
        StartFault::BadHeader { place } => Refusal::JournalHeader { place },
        StartFault::BadBody { slot } => Refusal::JournalBody { slot },
    }
}

/// Opens the journal of ceilings that belongs to the verifier's file of this name, with as many passes; or says why not, and gives the
/// disk back.
pub fn open_ceilings<B: Disk>(
    alloc: Global,
    mut journal: B,
    name: &str,
    access: Access,
    file: &VerifierFile,
    passes: u32,
) -> Result<(LeaseParts<B>, Vec<Pass>), (Refusal, B)>
    requires disk { IsJournalDisk (B.state journal) }
    requires passes { (1 ≤ passes) × (passes ≤ MAX_PASSES) }
    ensures opens { IfOk result (λ r. OpensJournal (journal_name name.now, access)
        (disk_change (B.state journal) (B.state r.0.disk))) }
    ensures since { IfOk result (λ _. (image : List ℕ)
        → (B.state journal).images_since (B.state journal).moment image → (B.state journal).images image) }
    ensures base { IfOk result (λ r. (bytes : List ℕ) → (B.state journal).content ≡ Some bytes
        → SaysCeiling file.now.id file.now.params.total r.0.base bytes) }
    ensures total { IfOk result (λ r. r.0.total ≡ file.now.params.total) }
    ensures header { IfOk result (λ r. (bytes : List ℕ) → (B.state r.0.disk).content ≡ Some bytes
        → HasCeilingHeader file.now.id r.0.total bytes) }
    ensures begins { IfOk result (λ r. Begins (B.state r.0.disk) (B.state r.0.disk)) }
    ensures passes { IfOk result (λ r. All (IsPassAt r.0.table r.0.total) r.1.items) }
    ensures unused { IfOk result (λ r. All IsUnused r.1.items) }
    ensures made { IfOk result (λ r. length r.1.items ≡ r.0.passes) }
    ensures count { IfOk result (λ r. r.0.passes ≡ passes) }
    ensures some { IfOk result (λ r. 1 ≤ length r.1.items) }
    ensures reads { IfErr result (λ e. OnlyReads (journal_name name.now, access)
        (disk_change (B.state journal) (B.state e.1))) }
    ensures stop { IfErr result (λ e. JournalStop
        (IsCeilingsFault file.now.id file.now.params.total (B.state journal))
        (disk_change (B.state journal) (B.state e.1)) e.0) }
{
    if let Err(refusal) = choose_journal(alloc, &mut journal, name, access) {
        return Err((refusal, journal));
    }
    match LeaseParts::start(alloc, journal, &file.id(), file.total(), passes) {
        Ok(opened) => Ok(opened),
        Err((StoreFault::NoMemory, disk)) => Err((Refusal::NoMemory, disk)),
        Err((StoreFault::Journal(fault), disk)) => {
            let count = disk.faults();
            Err((start_stop(fault, count), disk))
        }
    }
}

/// Opens the journal of claims of this name, id and total; or says why not, and gives the disk back.
fn open_named<B: Disk>(
    alloc: Global,
    mut journal: B,
    name: &str,
    access: Access,
    id: &[u8; 32],
    total: u64,
) -> Result<ClaimStore<B>, (Refusal, B)>
    requires disk { IsJournalDisk (B.state journal) }
    ensures opens { IfOk result (λ store. OpensJournal (name.now, access)
        (disk_change (B.state journal) (B.state store.disk))) }
    ensures since { IfOk result (λ _. (image : List ℕ)
        → (B.state journal).images_since (B.state journal).moment image → (B.state journal).images image) }
    ensures holds { IfOk result (λ store. (bytes : List ℕ) → (B.state journal).content ≡ Some bytes
        → HoldsTwin Claims id.now total store.begin store.slots bytes) }
    ensures says { IfOk result (λ store. (bytes : List ℕ) → (B.state journal).content ≡ Some bytes
        → SaysClaims total store.begin store.slots store.claims bytes) }
    ensures in_use { IfOk result (λ store. (bytes : List ℕ) → (B.state journal).content ≡ Some bytes
        → AreInUse store.begin store.slots store.used bytes) }
    ensures durable { IfOk result (λ store. AreDurable B.state store) }
    ensures only { IfOk result (λ store. Only (B.state store.disk).content (B.state store.disk).images) }
    ensures sound { IfOk result (λ store. AreClaims total store.claims) }
    ensures rising { IfOk result (λ store. RiseFrom 0 store.claims) }
    ensures total { IfOk result (λ store. store.total ≡ total) }
    ensures whole { IfOk result (λ store. store.fault ≡ 0) }
    ensures reads { IfErr result (λ e. OnlyReads (name.now, access)
        (disk_change (B.state journal) (B.state e.1))) }
    ensures stop { IfErr result (λ e. JournalStop
        (IsClaimsFault id.now total (B.state journal))
        (disk_change (B.state journal) (B.state e.1)) e.0) }
{
    if let Err(refusal) = choose_named(&mut journal, name, access) {
        return Err((refusal, journal));
    }
    match ClaimStore::start(alloc, journal, id, total) {
        Ok(store) => Ok(store),
        Err((claim_store::StoreFault::NoMemory, disk)) => Err((Refusal::NoMemory, disk)),
        Err((claim_store::StoreFault::Journal(fault), disk)) => {
            let count = disk.faults();
            Err((start_stop(fault, count), disk))
        }
    }
}

/// Opens the journal of claims that belongs to the prover's file of this name; or says why not, and gives the disk back.
pub fn open_claims<B: Disk>(
    alloc: Global,
    journal: B,
    name: &str,
    access: Access,
    file: &ProverFile,
) -> Result<ClaimStore<B>, (Refusal, B)>
    requires disk { IsJournalDisk (B.state journal) }
    ensures opens { IfOk result (λ store. OpensJournal (journal_name name.now, access)
        (disk_change (B.state journal) (B.state store.disk))) }
    ensures since { IfOk result (λ _. (image : List ℕ)
        → (B.state journal).images_since (B.state journal).moment image → (B.state journal).images image) }
    ensures holds { IfOk result (λ store. (bytes : List ℕ) → (B.state journal).content ≡ Some bytes
        → HoldsTwin Claims file.now.id file.now.params.total store.begin store.slots bytes) }
    ensures says { IfOk result (λ store. (bytes : List ℕ) → (B.state journal).content ≡ Some bytes
        → SaysClaims file.now.params.total store.begin store.slots store.claims bytes) }
    ensures in_use { IfOk result (λ store. (bytes : List ℕ) → (B.state journal).content ≡ Some bytes
        → AreInUse store.begin store.slots store.used bytes) }
    ensures durable { IfOk result (λ store. AreDurable B.state store) }
    ensures only { IfOk result (λ store. Only (B.state store.disk).content (B.state store.disk).images) }
    ensures sound { IfOk result (λ store. AreClaims file.now.params.total store.claims) }
    ensures rising { IfOk result (λ store. RiseFrom 0 store.claims) }
    ensures total { IfOk result (λ store. store.total ≡ file.now.params.total) }
    ensures small { IfOk result (λ store. store.total < 2 ^ 64 - 1) }
    ensures whole { IfOk result (λ store. store.fault ≡ 0) }
    ensures reads { IfErr result (λ e. OnlyReads (journal_name name.now, access)
        (disk_change (B.state journal) (B.state e.1))) }
    ensures stop { IfErr result (λ e. JournalStop
        (IsClaimsFault file.now.id file.now.params.total (B.state journal))
        (disk_change (B.state journal) (B.state e.1)) e.0) }
{
    let Ok(name) = name_of(alloc, name) else {
        return Err((Refusal::NoMemory, journal));
    };
    open_named(alloc, journal, &name, access, &file.id(), file.total())
}

/// Opens the journal of claims of the node of this number, which holds the verifier's file of this name; or says why not, and gives the disk
/// back.
pub fn open_node_claims<B: Disk>(
    alloc: Global,
    journal: B,
    name: &str,
    node: u32,
    access: Access,
    file: &VerifierFile,
) -> Result<ClaimStore<B>, (Refusal, B)>
    requires disk { IsJournalDisk (B.state journal) }
    ensures opens { IfOk result (λ store. OpensJournal (node_journal_name name.now node, access)
        (disk_change (B.state journal) (B.state store.disk))) }
    ensures since { IfOk result (λ _. (image : List ℕ)
        → (B.state journal).images_since (B.state journal).moment image → (B.state journal).images image) }
    ensures holds { IfOk result (λ store. (bytes : List ℕ) → (B.state journal).content ≡ Some bytes
        → HoldsTwin Claims file.now.id file.now.params.total store.begin store.slots bytes) }
    ensures says { IfOk result (λ store. (bytes : List ℕ) → (B.state journal).content ≡ Some bytes
        → SaysClaims file.now.params.total store.begin store.slots store.claims bytes) }
    ensures in_use { IfOk result (λ store. (bytes : List ℕ) → (B.state journal).content ≡ Some bytes
        → AreInUse store.begin store.slots store.used bytes) }
    ensures durable { IfOk result (λ store. AreDurable B.state store) }
    ensures only { IfOk result (λ store. Only (B.state store.disk).content (B.state store.disk).images) }
    ensures sound { IfOk result (λ store. AreClaims file.now.params.total store.claims) }
    ensures rising { IfOk result (λ store. RiseFrom 0 store.claims) }
    ensures total { IfOk result (λ store. store.total ≡ file.now.params.total) }
    ensures small { IfOk result (λ store. store.total < 2 ^ 64 - 1) }
    ensures whole { IfOk result (λ store. store.fault ≡ 0) }
    ensures reads { IfErr result (λ e. OnlyReads (node_journal_name name.now node, access)
        (disk_change (B.state journal) (B.state e.1))) }
    ensures stop { IfErr result (λ e. JournalStop
        (IsClaimsFault file.now.id file.now.params.total (B.state journal))
        (disk_change (B.state journal) (B.state e.1)) e.0) }
{
    let Ok(name) = node_journal_name(alloc, name, node) else {
        return Err((Refusal::NoMemory, journal));
    };
    open_named(alloc, journal, &name, access, &file.id(), file.total())
}
