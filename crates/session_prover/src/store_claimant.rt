// A store that claims units for a session.
ghost use Rattle.std.specs.Prelude.{◌≡◌, None};

use crate::claimant::Claimant;
use claim_store::{ClaimFault, ClaimStore};
use std::alloc::Global;
use zk_model::Span;
use zk_port::Disk;

/// StoreClaims units from a store of its own, once.
#[derive(Drop)]
pub struct StoreClaimant<B: Disk> {
    alloc: Global,
    pub store: ClaimStore<B>,
    pub asked: Option<(u64, u64)>,
    pub answer: Option<Result<Span, ClaimFault>>,
}

impl<B: Disk> StoreClaimant<B> {
    /// StoreClaims from this store; the list of its claims grows by the allocator of its start.
    pub fn new(alloc: Global, store: ClaimStore<B>) -> Self
        ensures store { result.store ≡ store }
        ensures unasked { result.asked ≡ None }
        ensures unanswered { result.answer ≡ None }
    {
        StoreClaimant {
            alloc,
            store,
            asked: None,
            answer: None,
        }
    }

    /// Gives the store back, as it stands.
    pub fn into_store(self) -> ClaimStore<B>
        ensures { result ≡ self.store }
    {
        self.store
    }
}

impl<B: Disk> Claimant for StoreClaimant<B> {
    ghost use Rattle.session_prover.specs.Stores.{StoreClaims};

    ghost asked = { λ c. c.asked };

    ghost answer = { λ c. c.answer };

    ghost total = { λ c. c.store.total };

    ghost moves = { λ c start count answer d. StoreClaims B.state c.store start count answer d.store };

    fn claim(&mut self, start: u64, count: u32) -> Result<Span, ClaimFault> {
        let answer = self.store.claim(self.alloc, start, count);
        self.asked = Some((start, u64::from(count)));
        self.answer = Some(answer);
        answer
    }
}
