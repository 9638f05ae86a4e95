// The sessions of a scenario: what the peer of each sends, and how its link fails.
ghost use Rattle.std.specs.Prelude.{◌≡◌, true, IfOk};
ghost use Rattle.zk_port.specs.Doors.{IsFreshLink};

use crate::piece_link::{PieceLink, plan_of};
use crate::scenario::{NOTHING_REFUSED, Peer, Refused, Sweep};
use anyhow::{Error, Result};
use std::alloc::Global;
use zk_port::Link;

/// The peer's bytes of one session, the calls of the link that are refused, how many bytes come at most in one receive, and the session's
/// name.
#[derive(Drop)]
pub struct Case {
    pub name: String,
    pub script: Vec<u8>,
    pub refused: Refused,
    pub piece: u64,
}

/// A link whose peer sends these bytes, in pieces, and of whose calls these are refused.
pub fn link_of(alloc: Global, script: Vec<u8>, refused: Refused, piece: u64) -> Result<PieceLink>
    ensures fresh { IfOk result (λ link. IsFreshLink (⟦<PieceLink as Link>⟧.state link)) }
    ensures is_open { IfOk result (λ link. (⟦<PieceLink as Link>⟧.state link).is_open ≡ true) }
{
    let plan = plan_of(alloc, refused)?;
    let piece = piece.clamp(1, 4096) as usize;
    Ok(PieceLink::new(alloc, script, plan, piece))
}

/// Puts a byte in place of another.
pub fn set_byte(bytes: &mut [u8], place: u64, byte: u64) -> Result<()> {
    match bytes.get_mut(place as usize) {
        Some(there) if byte < 256 => *there = byte as u8,
        _ => return Err(Error::msg("no such place, or no byte")),
    }
    Ok(())
}

/// The bytes of a peer, from the honest ones.
fn script_of(alloc: Global, peer: &Peer<'_>, honest: &[u8]) -> Result<Vec<u8>> {
    let keep = peer.keep.unwrap_or(honest.len() as u64);
    let Some(kept) = honest.get(..keep as usize) else {
        return Err(Error::msg("the honest peer sends less"));
    };
    let mut script = kept.to_vec(alloc)?;
    script.extend_from_slice(&hex::decode(alloc, peer.more)?)?;
    if let Some((place, byte)) = peer.set {
        set_byte(&mut script, place, byte)?;
    }
    Ok(script)
}

/// The name of the session of one number of a range.
fn case_name(alloc: Global, sweep: Sweep, number: u64) -> Result<String> {
    match sweep {
        Sweep::Nothing => Ok(String::new(alloc)),
        Sweep::Cut => Ok(format!(in alloc; "cut={number} ")?),
        Sweep::Change { .. } => Ok(format!(in alloc; "change={number} ")?),
        Sweep::Fail => Ok(format!(in alloc; "fail={number} ")?),
        Sweep::Lack => Ok(format!(in alloc; "lack={number} ")?),
    }
}

/// Has a number of a range change the peer's bytes.
fn change_script(script: &mut Vec<u8>, sweep: Sweep, number: u64) {
    match sweep {
        Sweep::Nothing | Sweep::Fail | Sweep::Lack => {}
        Sweep::Cut => script.truncate(number as usize),
        Sweep::Change { mask } => {
            if let Some(byte) = script.get_mut(number as usize) {
                *byte ^= mask;
            }
        }
    }
}

/// The calls of the link that a number of a range has refused.
fn refused_by(sweep: Sweep, number: u64) -> Refused {
    let mut refused = NOTHING_REFUSED;
    match sweep {
        Sweep::Fail => refused.fails = number,
        Sweep::Lack => refused.lacks = number,
        _ => {}
    }
    refused
}

/// The session of one number of a peer's range.
fn case_of(alloc: Global, peer: &Peer<'_>, script: &[u8], number: u64) -> Result<Case> {
    let mut script = script.to_vec(alloc)?;
    change_script(&mut script, peer.sweep, number);
    let name = case_name(alloc, peer.sweep, number)?;
    Ok(Case {
        name,
        script,
        refused: refused_by(peer.sweep, number),
        piece: peer.piece,
    })
}

/// The sessions with a peer, whose honest bytes are these.
pub fn cases_of(alloc: Global, peer: &Peer<'_>, honest: &[u8]) -> Result<Vec<Case>> {
    let script = script_of(alloc, peer, honest)?;
    let (from, to) = peer.numbers;
    let mut cases = Vec::new(alloc);
    for number in from..to {
        cases.push(case_of(alloc, peer, &script, number)?)?;
    }
    Ok(cases)
}
