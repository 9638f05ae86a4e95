// Frames of a session, noted in its log as they are spelled.
ghost use Rattle.std.specs.Prelude.{◌≡◌, ◌*◌, ◌^◌, ◌<◌, ◌≤◌, ◌++◌, length, map, flat_map, All, IfOk, OnOk};
ghost use Rattle.zk_model.specs.Field.{IsElement};
ghost use Rattle.zk_model.specs.Bytes.{element_bytes};
ghost use Rattle.zk_model.specs.Transcript.{frame_bytes, bytes_from, hello_frame, grant_frame, sums_frame, verdict_frame};
ghost use Rattle.proof_frames.specs.Frames.{frame_value, IsShort};
ghost use Rattle.zk_model.specs.Frames.{frame_spelling};
ghost use Rattle.zk_model.specs.View.{verdict_code, verdict_number};
ghost use Rattle.session_rehearsal.specs.Exchanges.{IsExchangeNoted, IsShortExchange};
ghost use Rattle.zk_model.specs.declared.Side.TheVariants.{Prover, Verifier};
ghost use Rattle.zk_model.specs.declared.limits.TheConstants.{MAX_PAYLOAD};

use crate::exchange::SessionValues;
use frame_link::Log;
use mersenne_field::Fe;
use proof_frames::{
    Frame, FrameKind, Grant, Hello, encode, encode_elements, encode_grant, encode_hello,
    encode_sums, encode_verdict,
};
use std::alloc::{AllocError, Global};
use zk_model::{Side, Verdict};

/// The prover's greeting.
fn note_hello(alloc: Global, log: &mut Log, hello: Hello) -> Result<(), AllocError>
    ensures { OnOk result (log.new ≡ log.old ++ bytes_from Prover (hello_frame hello)) }
{
    let bytes = encode_hello(alloc, &hello)?;
    log.push(Side::Prover, &bytes)?;
    Ok(())
}

/// The verifier's grant.
fn note_grant(alloc: Global, log: &mut Log, grant: Grant) -> Result<(), AllocError>
    ensures { OnOk result (log.new ≡ log.old ++ bytes_from Verifier (grant_frame grant)) }
{
    let bytes = encode_grant(alloc, &grant)?;
    log.push(Side::Verifier, &bytes)?;
    Ok(())
}

/// Frames of one side, as they are spelled.
fn note_frames(alloc: Global, log: &mut Log, side: Side, frames: &[Frame]) -> Result<(), AllocError>
    requires { All IsShort (map frame_value frames.now) }
    ensures { OnOk result (log.new ≡ log.old ++ bytes_from side
        (flat_map frame_spelling (map frame_value frames.now))) }
{
    for frame in frames {
        let bytes = encode(alloc, frame)?;
        log.push(side, &bytes)?;
    }
    Ok(())
}

/// Elements of this side: corrections, a challenge or openings.
fn note_elements(
    alloc: Global,
    log: &mut Log,
    side: Side,
    kind: FrameKind,
    elements: &[Fe],
) -> Result<(), AllocError>
    requires { 8 * length elements.now ≤ MAX_PAYLOAD }
    ensures logged { OnOk result (log.new ≡ log.old ++ bytes_from side
        (frame_bytes kind (flat_map element_bytes elements.now))) }
    ensures ranged { OnOk result (All IsElement elements.now) }
{
    let bytes = encode_elements(alloc, kind, elements)?;
    log.push(side, &bytes)?;
    Ok(())
}

/// The prover's sums of all sections.
fn note_sums(alloc: Global, log: &mut Log, sums: &[(Fe, Fe)]) -> Result<(), AllocError>
    requires { 16 * length sums.now ≤ MAX_PAYLOAD }
    ensures logged { OnOk result (log.new ≡ log.old ++ bytes_from Prover (sums_frame sums.now)) }
    ensures ranged { OnOk result (All (λ both. IsElement both.0 × IsElement both.1) sums.now) }
{
    let bytes = encode_sums(alloc, sums)?;
    log.push(Side::Prover, &bytes)?;
    Ok(())
}

/// The code and the number of a verdict in its frame.
fn said_by(verdict: Verdict) -> (u8, u32)
    ensures code { result.0 ≡ verdict_code verdict }
    ensures number { result.1 ≡ verdict_number verdict }
{
    match verdict {
        Verdict::Accepted => (0, 0),
        Verdict::RejectedSum { section } => (1, section),
        Verdict::RejectedOpening { output } => (2, output),
    }
}

/// The verifier's verdict.
fn note_verdict(alloc: Global, log: &mut Log, verdict: Verdict) -> Result<(), AllocError>
    ensures logged { OnOk result (log.new ≡ log.old ++ bytes_from Verifier
        (verdict_frame (verdict_code verdict) (verdict_number verdict))) }
    ensures fits { verdict_number verdict < 2 ^ 32 }
{
    let (code, number) = said_by(verdict);
    let bytes = encode_verdict(alloc, code, number)?;
    log.push(Side::Verifier, &bytes)?;
    Ok(())
}

/// The log of all that both ends say.
pub(crate) fn note(alloc: Global, exchange: &SessionValues) -> Result<Log, AllocError>
    requires { IsShortExchange exchange.now }
    ensures { IfOk result (λ log. IsExchangeNoted exchange.now log) }
{
    let SessionValues {
        corrections,
        challenge,
        opened,
        ..
    } = exchange;
    let mut log = Log::new(alloc);
    note_hello(alloc, &mut log, exchange.hello)?;
    note_grant(alloc, &mut log, exchange.grant)?;
    note_frames(alloc, &mut log, Side::Prover, &exchange.asked)?;
    note_frames(alloc, &mut log, Side::Verifier, &exchange.replied)?;
    note_elements(
        alloc,
        &mut log,
        Side::Prover,
        FrameKind::Corrections,
        corrections,
    )?;
    note_elements(
        alloc,
        &mut log,
        Side::Verifier,
        FrameKind::Challenge,
        &[*challenge],
    )?;
    note_sums(alloc, &mut log, &opened.sums)?;
    note_elements(
        alloc,
        &mut log,
        Side::Prover,
        FrameKind::Openings,
        &opened.openings,
    )?;
    note_verdict(alloc, &mut log, exchange.verdict)?;
    Ok(log)
}
