// One who leases units, whose answer is noted.
ghost use Rattle.std.specs.Prelude.{◌≡◌};
ghost use Rattle.session_pool.specs.Notes.{granted_by};
ghost use Rattle.claim_service.specs.ClaimNotes.{number_asked};

use lease_store::{GrantFault, Grantor};
use zk_model::Span;

/// One who leases units of another, once, and keeps the answer.
pub(crate) struct Noted<'a, T> {
    pub(crate) grantor: &'a mut T,
    pub(crate) answer: Option<Result<Span, GrantFault>>,
}

impl<'a, T: Grantor> Grantor for Noted<'a, T> {
    ghost use Rattle.std.specs.Prelude.{◌≡◌, None, Some};

    ghost answer = { λ n. n.answer };

    ghost asked = { λ n. T.asked n.grantor.now };

    ghost total = { λ n. T.total n.grantor.now };

    ghost may = { λ n count. (T.answer n.grantor.now ≡ None) × T.may n.grantor.now count };

    ghost moves = { λ n count answer m. (m.grantor.ghost_name ≡ n.grantor.ghost_name)
        × (T.answer m.grantor.now ≡ Some answer) × T.moves n.grantor.now count answer m.grantor.now };

    fn grant(&mut self, count: u32) -> Result<Span, GrantFault> {
        let answer = self.grantor.grant(count);
        self.answer = Some(answer);
        answer
    }
}

/// The units that were leased, if any were.
pub(crate) fn granted_in(answer: Option<Result<Span, GrantFault>>) -> Option<Span>
    ensures { result ≡ granted_by answer }
{
    match answer {
        Some(Ok(span)) => Some(span),
        Some(Err(_)) | None => None,
    }
}

/// The number of the claim, 0, once units were asked for.
pub(crate) fn number_in(answer: Option<Result<Span, GrantFault>>) -> Option<u32>
    ensures { result ≡ number_asked answer }
{
    match answer {
        Some(_) => Some(0),
        None => None,
    }
}
