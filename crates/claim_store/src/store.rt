// A store of claims.
ghost use Rattle.std.specs.Prelude.{◌≡◌, ◌≢◌, ◌<◌, ◌≤◌, ◌+◌, ◌-◌, ◌*◌, ◌^◌, ◌++◌, ◌∷◌, [], ℕ, List, length, Some, IfSome, IfOk, IfErr, OnOk, OnErr};
ghost use Rattle.zk_port.specs.Counts.{Rose};
ghost use Rattle.zk_port.specs.Disks.{LeavesOnly, Stays};
ghost use Rattle.zk_port.specs.Images.{Only};
ghost use Rattle.claim_store.specs.ClaimedRanges.{AreMerged, RiseFrom};
ghost use Rattle.lease_journal.specs.Twins.{HoldsTwin, twin_length};
ghost use Rattle.zk_model.specs.declared.JournalKind.TheVariants.{Claims};
ghost use Rattle.lease_core.specs.Spans.{span};
ghost use Rattle.lease_journal.specs.Keeps.{ChangesAt, Keeps};
ghost use Rattle.twin_journal.specs.Starts.{IsTidyFile, SaysTwinSlots};
ghost use Rattle.claim_store.specs.Claims.{AreClaims, AreDurable, AreInUse, AreUnsure, SaysClaims, SaysOldOrNewClaims};
ghost use Rattle.claim_store.specs.Causes.{ClaimCause, IsFree, IsClaimFaultOf, StoreCause};
ghost use Rattle.claim_store.specs.Ranges.{with_span};
ghost use Rattle.claim_store.specs.Writes.{next_used};
ghost use Rattle.claim_store.specs.declared.fault.StoreFault.TheVariants as store;
ghost use Rattle.lease_journal.specs.declared.fault.StartFault.TheVariants as start;

use crate::ClaimFault;
use crate::fault::StoreFault;
use crate::ranges::{add_span, count_with, first_met};
use crate::reading::read_claims;
use crate::writing::write_span;
use std::alloc::{AllocError, Global};
use std::marker::Model;
use twin_journal::{JournalKind, Twin};
use zk_model::Span;
use zk_port::Disk;

/// The claims that a journal on a disk keeps, as merged ranges: they rise, and no two touch. Contracts see of it the
/// disk, where the journal begins, the total, how many slots there are and are in use, the kept count of faults and the
/// ranges (`ClaimState`).
#[derive(Drop)]
pub struct ClaimStore<B: Disk> {
    journal: Twin<B>,
    total: u64,
    claims: Vec<Span>,
}

impl<B: Disk> Model for ClaimStore<B> {
    ghost use Rattle.claim_store.specs.Claims as model;

    ghost Value = { model.ClaimState B };

    ghost coded = { model.claim_state_code B.code };

    ghost view = { λ s. model.state_of s.journal s.total s.claims.items };

    ghost invariant = { λ s. model.IsStoreKept B.state s.journal s.total s.claims.items };
}

/// These ranges with a span that meets none of them.
fn ranges_with(alloc: Global, ranges: &[Span], span: Span) -> Result<Vec<Span>, AllocError>
    requires rising { RiseFrom 0 ranges.now }
    requires some { span.start < span.end }
    ensures { IfOk result (λ with. with.items ≡ with_span span ranges.now) }
{
    let mut with = ranges.to_vec(alloc)?;
    add_span(&mut with, span)?;
    Ok(with)
}

impl<B: Disk> ClaimStore<B> {
    /// Opens the journal of claims of this id and total, in units, that stands on the disk, and reads its claims. The
    /// disk of a refused start comes back.
    ///
    /// # Errors
    ///
    /// As the journal's start; last `BadBody` of the first open slot whose span has a unit of an earlier one. `Device`
    /// where a call of the disk failed; `NoMemory` only where memory runs out.
    pub fn start(alloc: Global, disk: B, id: &[u8; 32], total: u64) -> Result<Self, (StoreFault, B)>
        requires room { (size : ℕ) → (B.state disk).room ≡ Some size → (begin slots : ℕ)
            → SaysTwinSlots Claims (B.state disk).content begin slots → begin + twin_length slots ≤ size }
        requires tidy { (bytes : List ℕ) → (B.state disk).content ≡ Some bytes
            → IsTidyFile Claims id.now total bytes }
        ensures holds { IfOk result (λ store. (bytes : List ℕ) → (B.state disk).content ≡ Some bytes
            → HoldsTwin Claims id.now total store.begin store.slots bytes) }
        ensures in_use { IfOk result (λ store. (bytes : List ℕ) → (B.state disk).content ≡ Some bytes
            → AreInUse store.begin store.slots store.used bytes) }
        ensures recovered { IfOk result (λ store. (bytes : List ℕ)
            → (B.state disk).content ≡ Some bytes
            → SaysClaims total store.begin store.slots store.claims bytes) }
        ensures durable { IfOk result (λ store. AreDurable B.state store) }
        ensures only { IfOk result (λ store. Only (B.state store.disk).content (B.state store.disk).images) }
        ensures sound { IfOk result (λ store. AreClaims total store.claims) }
        ensures rising { IfOk result (λ store. RiseFrom 0 store.claims) }
        ensures total { IfOk result (λ store. store.total ≡ total) }
        ensures whole { IfOk result (λ store. store.fault ≡ 0) }
        ensures stays { IfOk result (λ store.
            Stays (B.state disk) (B.state store.disk)) }
        ensures faults { IfOk result (λ store. (B.state store.disk).faults ≡ (B.state disk).faults) }
        ensures cause { IfErr result (λ e. (bytes : List ℕ) → (B.state disk).content ≡ Some bytes
            → StoreCause id.now total bytes e.0) }
        ensures device { IfErr result (λ e. e.0 ≡ store.Journal start.Device
            → Rose (B.state disk).faults (B.state e.1).faults) }
        ensures faults_grow { IfErr result (λ e. (B.state disk).faults ≤ (B.state e.1).faults) }
        ensures stays_refused { IfErr result (λ e.
            Stays (B.state disk) (B.state e.1)) }
    {
        let mut journal = match Twin::start(disk, JournalKind::Claims, id, total) {
            Ok(journal) => journal,
            Err((fault, disk)) => return Err((StoreFault::Journal(fault), disk)),
        };
        match read_claims(alloc, &mut journal, total) {
            Ok(claims) => Ok(ClaimStore {
                journal,
                total,
                claims,
            }),
            Err(fault) => Err((fault, journal.into_disk())),
        }
    }

    /// The merged ranges of the claims, by rising start.
    pub fn claims(&self) -> &[Span]
        ensures list { result.now ≡ self.now.claims }
        ensures sound { AreClaims self.now.total self.now.claims }
        ensures rising { RiseFrom 0 self.now.claims }
        ensures durable { self.now.fault ≡ 0 → self.now.total < 2 ^ 64 - 1 → AreDurable B.state self.now }
        ensures only { self.now.fault ≡ 0
            → Only (B.state self.now.disk).content (B.state self.now.disk).images }
        ensures unsure { self.now.fault ≢ 0 → self.now.total < 2 ^ 64 - 1 → (bytes : List ℕ)
            → (B.state self.now.disk).content ≡ Some bytes → AreUnsure B.state self.now bytes }
    {
        &self.claims
    }

    /// What is to be claimed, where nothing speaks against it.
    fn admit(&self, start: u64, count: u32) -> Result<Span, ClaimFault>
        requires { 1 ≤ count }
        ensures free { IfOk result (λ s. (s ≡ span start (start + count)) × IsFree self.now start count) }
        ensures fits { IfOk result (λ s. self.now.slots ≤ self.now.used
            → length (with_span s self.now.claims) ≤ self.now.slots) }
        ensures refused { IfErr result (IsClaimFaultOf self.now start count) }
    {
        let first = self.journal.fault();
        if first != 0 {
            return Err(ClaimFault::Broken { first });
        }
        let total = self.total;
        let count = u64::from(count);
        if start > total || count > total - start {
            return Err(ClaimFault::OutOfRange { total });
        }
        let end = start + count;
        let span = Span { start, end };
        if let Some(earlier) = first_met(&self.claims, span) {
            return Err(ClaimFault::Overlap { earlier });
        }
        let slots = self.journal.slots();
        if self.journal.used() == slots && count_with(&self.claims, span) as u64 > slots {
            return Err(ClaimFault::Full { slots });
        }
        Ok(span)
    }

    /// Claims `count` units, at least 1, from `start` on. Where a slot of the journal is free, it puts their span there;
    /// where all are in use, it puts the merged ranges with the span among them in place of all bodies. Where a call of
    /// the disk fails, a crash may leave the journal with the span or without. A list of ranges is made by the allocator.
    ///
    /// Nothing is said of the journal where the total is the greatest of its type, since there the generations may come
    /// to their end.
    ///
    /// # Errors
    ///
    /// The first of these that applies: `Broken` where a call of the disk failed in an earlier claim; `OutOfRange` where
    /// the units end above the total; `Overlap` with the range of least start that has one of them; `Full` where all
    /// slots are in use and the ranges with these units among them are more than the slots; `NoMemory` only where memory
    /// runs out; `Device` where a call of the disk failed. All but `Device` leave the claims and the disk as they were.
    pub fn claim(&mut self, alloc: Global, start: u64, count: u32) -> Result<Span, ClaimFault>
        requires { 1 ≤ count }
        ensures free { OnOk result (IsFree self.old start count) }
        ensures span { IfOk result (λ s. s ≡ span start (start + count)) }
        ensures claimed { IfOk result (λ s. AreMerged (self.old.claims ++ s ∷ []) self.new.claims) }
        ensures used { OnOk result
            (self.new.used ≡ next_used self.old.used self.old.slots self.new.claims) }
        ensures durable { OnOk result (self.old.total < 2 ^ 64 - 1 → AreDurable B.state self.new) }
        ensures only { OnOk result (Only (B.state self.new.disk).content (B.state self.new.disk).images) }
        ensures read { self.old.fault ≡ 0 → self.old.total < 2 ^ 64 - 1 → (bytes : List ℕ)
            → (B.state self.old.disk).content ≡ Some bytes
            → IfSome (B.state self.new.disk).content (SaysOldOrNewClaims self.old.total self.old.begin
            self.old.slots self.old.claims (span start (start + count))) }
        ensures any_moment { self.old.fault ≡ 0 → self.old.total < 2 ^ 64 - 1 → (bytes : List ℕ)
            → (B.state self.old.disk).content ≡ Some bytes
            → LeavesOnly (B.state self.old.disk) (B.state self.new.disk) (SaysOldOrNewClaims self.old.total
            self.old.begin self.old.slots self.old.claims (span start (start + count))) }
        ensures changes { ChangesAt (self.old.begin + 64) (64 * (self.old.slots + 1))
            (B.state self.old.disk) (B.state self.new.disk) }
        ensures holds { (id : List ℕ) (total : ℕ)
            → Keeps (HoldsTwin Claims id total self.old.begin self.old.slots)
            (B.state self.old.disk) (B.state self.new.disk) }
        ensures cause { IfErr result (ClaimCause self.old start count self.new
            (B.state self.old.disk).faults (B.state self.new.disk).faults) }
        ensures kept { OnErr result (self.new.claims ≡ self.old.claims) }
        ensures used_kept { OnErr result (self.new.used ≡ self.old.used) }
        ensures begin { self.new.begin ≡ self.old.begin }
        ensures total { self.new.total ≡ self.old.total }
        ensures slots { self.new.slots ≡ self.old.slots }
        ensures whole { OnOk result (self.new.fault ≡ self.old.fault) }
        ensures faults { OnOk result ((B.state self.new.disk).faults ≡ (B.state self.old.disk).faults) }
        ensures faults_grow { (B.state self.old.disk).faults ≤ (B.state self.new.disk).faults }
    {
        let span = match self.admit(start, count) {
            Ok(span) => span,
            Err(fault) => return Err(fault),
        };
        let Ok(claims) = ranges_with(alloc, &self.claims, span) else {
            return Err(ClaimFault::NoMemory);
        };
        match write_span(&mut self.journal, &claims, span) {
            Ok(()) => {
                self.claims = claims;
                Ok(span)
            }
            Err(_) => Err(ClaimFault::Device),
        }
    }

    /// Ends the store, and gives the disk as it stands.
    pub fn close(self) -> B
        ensures disk { result ≡ self.disk }
        ensures sound { AreClaims self.total self.claims }
        ensures durable { self.fault ≡ 0 → self.total < 2 ^ 64 - 1 → AreDurable B.state self }
        ensures only { self.fault ≡ 0 → Only (B.state self.disk).content (B.state self.disk).images }
        ensures unsure { self.fault ≢ 0 → self.total < 2 ^ 64 - 1 → (bytes : List ℕ)
            → (B.state self.disk).content ≡ Some bytes → AreUnsure B.state self bytes }
    {
        self.journal.into_disk()
    }
}
