// The steps of a lease.
ghost use Rattle.std.specs.Prelude.{◌≡◌, ◌≤◌, ◌++◌, IfOk};
ghost use Rattle.broker_core.specs.Leases.{end_for, grant_steps, kept_of, lease_end, lease_steps, look_steps, repeated, steps_for};
ghost use Rattle.broker_core.specs.Messages.{rounded};
ghost use Rattle.zk_model.specs.declared.limits.TheConstants.{MAX_UNITS};

use crate::keeping::BrokerCore;
use crate::message::LeaseEnd;
use lease_core::{Event, Moment, State};
use std::alloc::{AllocError, Global};
use zk_model::{Span, Want};

/// The broker's one pass.
const PASS: u32 = 0;

/// As many units as a lease for so many has: the next multiple of 16.
pub fn rounded(count: u32) -> u32
    requires { count ≤ MAX_UNITS }
    ensures rounded { result ≡ rounded count }
    ensures some { 1 ≤ count → 1 ≤ result }
    ensures few { result ≤ MAX_UNITS }
{
    count.div_ceil(16) * 16
}

fn push_look(steps: &mut Vec<Event>, unseen: bool) -> Result<(), AllocError>
    ensures { IfOk result (λ _. steps.new.items ≡ steps.old.items ++ look_steps unseen) }
{
    if unseen {
        steps.push(Event::Look { pass: PASS })?;
    }
    Ok(())
}

fn push_grant(steps: &mut Vec<Event>, low: bool, stands: bool, span: Span) -> Result<(), AllocError>
    ensures { IfOk result (λ _. steps.new.items ≡ steps.old.items ++ grant_steps low stands span) }
{
    if !low {
        steps.push(Event::Spend { pass: PASS, span })?;
        return Ok(());
    }
    if stands {
        return Ok(());
    }
    steps.extend_from_slice(&[
        Event::Put {
            moment: Moment::Body { pass: PASS },
        },
        Event::Put {
            moment: Moment::BodySync,
        },
        Event::Put {
            moment: Moment::Gate,
        },
        Event::Put {
            moment: Moment::GateSync,
        },
        Event::Raise,
        Event::Look { pass: PASS },
        Event::Spend { pass: PASS, span },
    ])
}

/// The steps of a lease of `n` units.
fn lease_steps(alloc: Global, lease: &State, n: u32) -> Result<Vec<Event>, AllocError>
    ensures { IfOk result (λ steps. steps.items ≡ lease_steps lease.now n) }
{
    let mut steps = Vec::new(alloc);
    if lease.is_passed(PASS) {
        return Ok(steps);
    }
    let start = lease.next();
    let end = start + u64::from(n);
    steps.push(Event::Draw { pass: PASS, n })?;
    if lease.total() < end {
        return Ok(steps);
    }
    push_look(&mut steps, lease.known(PASS) < end)?;
    push_grant(
        &mut steps,
        lease.shown() < end,
        lease.is_putting(),
        Span { start, end },
    )?;
    Ok(steps)
}

/// How a lease of `n` units ends.
fn lease_end(lease: &State, n: u32) -> LeaseEnd
    ensures { result ≡ lease_end lease.now n }
{
    let start = lease.next();
    let end = start + u64::from(n);
    if lease.is_passed(PASS) {
        return LeaseEnd::Exhausted {
            at: match lease.last_drawn(PASS) {
                Some(span) => span.start,
                None => 0,
            },
        };
    }
    if lease.total() < end {
        return LeaseEnd::Exhausted { at: start };
    }
    if lease.shown() < end && lease.is_putting() {
        return LeaseEnd::Refused;
    }
    LeaseEnd::Leased {
        span: Span { start, end },
    }
}

/// The span that the broker keeps for a Want, where it comes again.
pub fn repeated(core: &BrokerCore, want: Want) -> Option<Span>
    ensures { result ≡ repeated (kept_of core.now want.node) want.number }
{
    match core.last(want.node) {
        Some((number, span)) if number == want.number => Some(span),
        _ => None,
    }
}

/// The steps of the lease for a Want.
pub(crate) fn steps_for(
    alloc: Global,
    lease: &State,
    core: &BrokerCore,
    want: Want,
) -> Result<Vec<Event>, AllocError>
    requires { want.count ≤ MAX_UNITS }
    ensures { IfOk result (λ steps. steps.items ≡ steps_for lease.now core.now want) }
{
    match repeated(core, want) {
        Some(_) => Ok(Vec::new(alloc)),
        None => lease_steps(alloc, lease, rounded(want.count)),
    }
}

/// How the lease for a Want ends.
pub(crate) fn end_for(lease: &State, core: &BrokerCore, want: Want) -> LeaseEnd
    requires { want.count ≤ MAX_UNITS }
    ensures { result ≡ end_for lease.now core.now want }
{
    match repeated(core, want) {
        Some(span) => LeaseEnd::Leased { span },
        None => lease_end(lease, rounded(want.count)),
    }
}
