// Who leases units to a verifier and claims them for a prover.
use claim_store::ClaimFault;
use lease_store::{GrantFault, Grantor, LeaseFault};
use session_prover::Claimant;
use zk_model::Span;

/// Leases the first units.
#[derive(Drop)]
pub struct FirstUnits {
    pub total: u64,
    pub asked: Option<u32>,
    pub answer: Option<Result<Span, GrantFault>>,
}

impl Grantor for FirstUnits {
    ghost answer = { λ g. g.answer };

    ghost asked = { λ g. g.asked };

    ghost total = { λ g. g.total };

    ghost may = { λ g count. Unit {0} };

    ghost moves = { λ g count answer h. Unit {0} };

    fn grant(&mut self, count: u32) -> Result<Span, GrantFault> {
        let total = self.total;
        let end = u64::from(count);
        let answer = if end <= total {
            Ok(Span { start: 0, end })
        } else {
            Err(GrantFault::Lease(LeaseFault::Exhausted {
                at: 0,
                count,
                total,
            }))
        };
        self.asked = Some(count);
        self.answer = Some(answer);
        answer
    }
}

/// Claims the units that it is asked for.
#[derive(Drop)]
pub struct AskedUnits {
    pub total: u64,
    pub asked: Option<(u64, u64)>,
    pub answer: Option<Result<Span, ClaimFault>>,
}

impl Claimant for AskedUnits {
    ghost asked = { λ c. c.asked };

    ghost answer = { λ c. c.answer };

    ghost total = { λ c. c.total };

    ghost moves = { λ c start count answer d. Unit {0} };

    fn claim(&mut self, start: u64, count: u32) -> Result<Span, ClaimFault> {
        let answer = match start.checked_add(u64::from(count)) {
            Some(end) if end <= self.total => Ok(Span { start, end }),
            _ => Err(ClaimFault::OutOfRange { total: self.total }),
        };
        self.asked = Some((start, u64::from(count)));
        self.answer = Some(answer);
        answer
    }
}
