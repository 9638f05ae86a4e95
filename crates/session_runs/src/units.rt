// Who leases units to a verifier and claims them for a prover, or refuses.
use crate::scenario::Refusal;
use anyhow::{Error, Result};
use claim_store::ClaimFault;
use lease_store::{GrantFault, Grantor, LeaseFault};
use session_prover::Claimant;
use zk_model::Span;

/// Leases units from this one on, or answers by a fault.
#[derive(Drop)]
pub struct NextUnits {
    pub start: u64,
    pub total: u64,
    pub fault: Option<GrantFault>,
    pub asked: Option<u32>,
    pub answer: Option<Result<Span, GrantFault>>,
}

impl Grantor for NextUnits {
    ghost answer = { λ g. g.answer };

    ghost asked = { λ g. g.asked };

    ghost total = { λ g. g.total };

    ghost may = { λ g count. Unit {0} };

    ghost moves = { λ g count answer h. Unit {0} };

    fn grant(&mut self, count: u32) -> Result<Span, GrantFault> {
        let at = self.start;
        let total = self.total;
        let answer = match (self.fault, at.checked_add(u64::from(count))) {
            (Some(fault), _) => Err(fault),
            (None, Some(end)) if end <= total => Ok(Span { start: at, end }),
            (None, _) => Err(GrantFault::Lease(LeaseFault::Exhausted { at, count, total })),
        };
        self.asked = Some(count);
        self.answer = Some(answer);
        answer
    }
}

/// Claims the units that it is asked for, or answers by a fault.
#[derive(Drop)]
pub struct AskedUnits {
    pub total: u64,
    pub fault: Option<ClaimFault>,
    pub asked: Option<(u64, u64)>,
    pub answer: Option<Result<Span, ClaimFault>>,
}

impl Claimant for AskedUnits {
    ghost asked = { λ c. c.asked };

    ghost answer = { λ c. c.answer };

    ghost total = { λ c. c.total };

    ghost moves = { λ c start count answer d. Unit {0} };

    fn claim(&mut self, start: u64, count: u32) -> Result<Span, ClaimFault> {
        let answer = match (self.fault, start.checked_add(u64::from(count))) {
            (Some(fault), _) => Err(fault),
            (None, Some(end)) if end <= self.total => Ok(Span { start, end }),
            (None, _) => Err(ClaimFault::OutOfRange { total: self.total }),
        };
        self.asked = Some((start, u64::from(count)));
        self.answer = Some(answer);
        answer
    }
}

/// The fault by which units are refused, if they are.
pub fn grant_fault(refusal: Option<Refusal<'_>>) -> Result<Option<GrantFault>> {
    let Some(refusal) = refusal else {
        return Ok(None);
    };
    let [first, second, third] = refusal.numbers;
    let fault = match refusal.name {
        "exhausted" if second < 1 << 32 => LeaseFault::Exhausted {
            at: first,
            count: second as u32,
            total: third,
        },
        "device" => LeaseFault::Device,
        "broken" => LeaseFault::Broken { first },
        _ => return Err(Error::msg("no refusal of a lease")),
    };
    Ok(Some(GrantFault::Lease(fault)))
}

/// The fault by which claims are refused, if they are.
pub fn claim_fault(refusal: Option<Refusal<'_>>) -> Result<Option<ClaimFault>> {
    let Some(refusal) = refusal else {
        return Ok(None);
    };
    let [first, second, _] = refusal.numbers;
    let fault = match refusal.name {
        "broken" => ClaimFault::Broken { first },
        "out-of-range" => ClaimFault::OutOfRange { total: first },
        "overlap" => ClaimFault::Overlap {
            earlier: Span {
                start: first,
                end: second,
            },
        },
        "full" => ClaimFault::Full { slots: first },
        "device" => ClaimFault::Device,
        "no-memory" => ClaimFault::NoMemory,
        _ => return Err(Error::msg("no refusal of a claim")),
    };
    Ok(Some(fault))
}
