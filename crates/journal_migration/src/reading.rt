// How the claims of a journal of one area are read.
ghost use Rattle.std.specs.Prelude.{◌≡◌, ◌≤◌, ◌<◌, ◌+◌, ◌*◌, ℕ, List, length, Some, IfOk, IfErr};
ghost use Rattle.zk_port.specs.Disks.{Stays};
ghost use Rattle.claim_store.specs.ClaimedRanges.{AreMerged, RiseFrom};
ghost use Rattle.zk_model.specs.declared.limits.TheConstants.{MAX_SLOTS};
ghost use Rattle.claim_store.specs.Causes.{HasReadCause, ClaimReadCause};
ghost use Rattle.claim_store.specs.Claims.{AreClaims, first_claims};

use claim_store::StoreFault;
use claim_store::ranges::{add_span, may_follow};
use lease_journal::area::read_body;
use std::alloc::Global;
use twin_journal::StartFault;
use zk_model::Span;
use zk_port::{Disk, Failed};

/// Where the slots of a journal of one area begin.
const SLOTS_AT: u64 = 64;

/// Reads the claims in the first slots of a journal of one area, as merged ranges.
///
/// # Errors
///
/// `Device` where the disk failed; `BadBody` of the first slot whose span may not stand after those before it;
/// `NoMemory` only where memory runs out.
pub fn read_claims<B: Disk>(
    alloc: Global,
    disk: &mut B,
    used: u64,
    total: u64,
) -> Result<Vec<Span>, StoreFault>
    requires bounded { used ≤ MAX_SLOTS }
    requires inside { (bytes : List ℕ) → (B.state disk.old).content ≡ Some bytes
        → 64 + 32 * used ≤ length bytes }
    ensures rising { IfOk result (λ ranges. RiseFrom 0 ranges.items) }
    ensures sound { IfOk result (λ ranges. AreClaims total ranges.items) }
    ensures few { IfOk result (λ ranges. length ranges.items ≤ used) }
    ensures merged { IfOk result (λ ranges. (bytes : List ℕ) → (B.state disk.old).content ≡ Some bytes
        → AreMerged (first_claims 64 used bytes) ranges.items) }
    ensures stays { Stays (B.state disk.old) (B.state disk.new) }
    ensures cause { IfErr result (λ e. (bytes : List ℕ) → (B.state disk.old).content ≡ Some bytes
        → ClaimReadCause total 64 used bytes e) }
    ensures faults { HasReadCause (B.state disk.old).faults (B.state disk.new).faults result }
{
    let mut ranges = Vec::new(alloc);
    for slot in 0..used {
        let claim = match read_body(disk, SLOTS_AT, slot) {
            Ok((start, end)) => Span { start, end },
            Err(Failed) => return Err(StoreFault::Journal(StartFault::Device)),
        };
        if !may_follow(&ranges, total, claim) {
            return Err(StoreFault::Journal(StartFault::BadBody { slot }));
        }
        add_span(&mut ranges, claim)?;
    }
    Ok(ranges)
}
