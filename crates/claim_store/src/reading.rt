// How claims are read from a journal.
ghost use Rattle.std.specs.Prelude.{◌≡◌, ◌<◌, ◌≤◌, ℕ, List, length, Some, IfOk, IfErr, OnOk};
ghost use Rattle.zk_port.specs.Disks.{Stays};
ghost use Rattle.claim_store.specs.ClaimedRanges.{AreMerged, RiseFrom};
ghost use Rattle.lease_journal.specs.Journals.{first_bodies};
ghost use Rattle.lease_journal.specs.Twins.{area_at, claimed_units};
ghost use Rattle.zk_model.specs.declared.JournalKind.TheVariants.{Claims};
ghost use Rattle.claim_store.specs.Claims.{AreClaims, bodies_of, claim_at, first_claims};
ghost use Rattle.claim_store.specs.Causes.{HasReadCause, ClaimReadCause};
ghost use Rattle.claim_store.specs.declared.fault.StoreFault.TheVariants as store;
ghost use Rattle.lease_journal.specs.declared.fault.StartFault.TheVariants as start;

use crate::fault::StoreFault;
use crate::ranges::{add_span, may_follow};
use std::alloc::Global;
use twin_journal::{StartFault, Twin};
use zk_model::Span;
use zk_port::Disk;

/// Reads the claim in a slot of the active area that is in use.
fn read_claim<B: Disk>(journal: &mut Twin<B>, slot: u64) -> Result<Span, StoreFault>
    requires whole { journal.old.fault ≡ 0 }
    requires used { slot < journal.old.used }
    ensures claim { IfOk result (λ claim. (bytes : List ℕ)
        → (B.state journal.old.disk).content ≡ Some bytes → claim
        ≡ claim_at (area_at journal.old.begin journal.old.slots journal.old.second) bytes slot) }
    ensures stays { Stays (B.state journal.old.disk) (B.state journal.new.disk) }
    ensures state { journal.new ≡ record journal.old { disk = journal.new.disk; fault = journal.new.fault } }
    ensures fault { OnOk result (journal.new.fault ≡ 0) }
    ensures cause { IfErr result (λ e. e ≡ store.Journal start.Device) }
    ensures count { HasReadCause (B.state journal.old.disk).faults (B.state journal.new.disk).faults result }
{
    match journal.body(slot) {
        Ok((start, end)) => Ok(Span { start, end }),
        Err(_) => Err(StoreFault::Journal(StartFault::Device)),
    }
}

/// Reads the claims in all slots of the active area that are in use, as ranges.
///
/// # Errors
///
/// `Device` where the disk failed; `BadBody` of the first slot whose span may not stand after those before it;
/// `NoMemory` only where memory runs out.
pub fn read_claims<B: Disk>(
    alloc: Global,
    journal: &mut Twin<B>,
    total: u64,
) -> Result<Vec<Span>, StoreFault>
    requires { journal.old.fault ≡ 0 }
    ensures rising { IfOk result (λ ranges. RiseFrom 0 ranges.items) }
    ensures sound { IfOk result (λ ranges. AreClaims total ranges.items) }
    ensures few { IfOk result (λ ranges. length ranges.items ≤ journal.old.used) }
    ensures apart { IfOk result (λ ranges. (bytes : List ℕ)
        → (B.state journal.old.disk).content ≡ Some bytes → AreClaims total (first_claims
        (area_at journal.old.begin journal.old.slots journal.old.second) journal.old.used bytes)) }
    ensures merged { IfOk result (λ ranges. (bytes : List ℕ)
        → (B.state journal.old.disk).content ≡ Some bytes → AreMerged
        (first_claims (area_at journal.old.begin journal.old.slots journal.old.second) journal.old.used bytes)
        ranges.items) }
    ensures units { IfOk result (λ ranges. (bytes : List ℕ)
        → (B.state journal.old.disk).content ≡ Some bytes → claimed_units Claims
        (first_bodies (area_at journal.old.begin journal.old.slots journal.old.second) journal.old.used bytes)
        ≡ claimed_units Claims (bodies_of ranges.items)) }
    ensures stays { Stays (B.state journal.old.disk) (B.state journal.new.disk) }
    ensures state { journal.new ≡ record journal.old { disk = journal.new.disk; fault = journal.new.fault } }
    ensures fault { OnOk result (journal.new.fault ≡ 0) }
    ensures cause { IfErr result (λ e. (bytes : List ℕ)
        → (B.state journal.old.disk).content ≡ Some bytes → ClaimReadCause total
        (area_at journal.old.begin journal.old.slots journal.old.second) journal.old.used bytes e) }
    ensures faults { HasReadCause (B.state journal.old.disk).faults (B.state journal.new.disk).faults result }
{
    let mut ranges = Vec::new(alloc);
    for slot in 0..journal.used() {
        let claim = match read_claim(journal, slot) {
            Ok(claim) => claim,
            Err(fault) => return Err(fault),
        };
        if !may_follow(&ranges, total, claim) {
            return Err(StoreFault::Journal(StartFault::BadBody { slot }));
        }
        add_span(&mut ranges, claim)?;
    }
    Ok(ranges)
}
