// Sessions about a claim, as a service leads them.
ghost use Rattle.std.specs.Prelude.{◌≡◌, ◌≤◌};
ghost use Rattle.zk_model.specs.declared.limits.TheConstants.{MAX_UNITS};
ghost use Rattle.claim_verifier.specs.Hearing.{units_of};

use crate::lead::lead_session;
use dealer_files::VerifierFile;
use lease_store::Grantor;
use session_claim::Claim;
use session_service::Sessions;
use session_verifier::SessionNote;
use std::alloc::Global;
use std::thread::Threads;
use zk_port::Link;

/// Sessions about one claim, over a verifier's file, in sections of this length.
#[derive(Drop)]
pub struct ClaimSessions<'a, C: Claim> {
    claim: &'a C,
    file: &'a VerifierFile,
    section: u32,
    ghost some: { 1 ≤ section },
    ghost few: { units_of (C.claim claim.now) file.now section ≤ MAX_UNITS },
}

impl<'a, C: Claim> ClaimSessions<'a, C> {
    /// Sessions of at most 4,096 units.
    pub fn new(claim: &'a C, file: &'a VerifierFile, section: u32) -> Self
        requires some { 1 ≤ section }
        requires few { units_of (C.claim claim.now) file.now section ≤ MAX_UNITS }
        ensures claim { result.claim.now ≡ claim.now }
        ensures file { result.file.now ≡ file.now }
        ensures section { result.section ≡ section }
    {
        ClaimSessions {
            claim,
            file,
            section,
        }
    }
}

impl<'a, L: Link + Drop, C: Claim> Sessions<L> for ClaimSessions<'a, C> {
    ghost use Rattle.claim_verifier.specs.Hearing.{units_of};
    ghost use Rattle.claim_service.specs.ClaimNotes.{IsClaimNote};

    ghost size = { λ s note. units_of (C.claim s.claim.now) s.file.now s.section };

    ghost id = { λ s. s.file.now.id };

    ghost total = { λ s. s.file.now.params.total };

    ghost is_note = { λ s answer note. IsClaimNote L.state (C.claim s.claim.now) s.file.now s.section answer note };

    fn lead<R: Threads + Sync, T: Grantor>(
        &self,
        rt: &R,
        alloc: Global,
        grantor: &mut T,
        link: L,
    ) -> SessionNote<L> {
        lead_session(
            rt,
            alloc,
            self.claim,
            self.file,
            self.section,
            grantor,
            link,
        )
    }
}
