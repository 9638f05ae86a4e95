// The openings of wires.
ghost use Rattle.std.specs.Prelude.{◌≡◌, ◌≢◌, ◌≤◌, length, IfOk, IfErr};
ghost use Rattle.zk_model.specs.Check.{AllOpeningsHold};
ghost use Rattle.zk_model.specs.Field.{◌+ₚ◌, ◌*ₚ◌};
ghost use Rattle.mult_check.specs.Checks.{opening_check, OpensFirst};

use mersenne_field::Fe;
use thiserror::Error;
use wire_auth::{VerifierWalk, VerifierWires};

/// The equation of an opened wire fails: its number among them, from 0 on, and both sides.
#[derive(Clone, Copy, Debug, PartialEq, Eq, Error)]
#[error("the equation of opened wire {output} fails")]
pub struct OpeningDiffers {
    pub output: u32,
    pub left: Fe,
    pub right: Fe,
}

/// Tests the equation of one opened wire, whose key is the left side.
pub(crate) fn check_opening(
    output: u32,
    left: Fe,
    mac: Fe,
    claim: Fe,
    key: Fe,
) -> Result<(), OpeningDiffers>
    ensures holds { IfOk result (λ _. left ≡ mac +ₚ claim *ₚ key) }
    ensures differs { IfErr result (λ d. (left ≢ mac +ₚ claim *ₚ key) × (d ≡ record {
      output = output;
      left = left;
      right = mac +ₚ claim *ₚ key;
    })) }
{
    let right = mac + claim * key;
    if left != right {
        return Err(OpeningDiffers {
            output,
            left,
            right,
        });
    }
    Ok(())
}

/// Tests the equation of every opened wire, one after another: its key is the MAC that was sent, and the claimed value times
/// the one key (Weng, Yang, Katz and Wang, Wolverine, IEEE S&P 2021). There are as many MACs, and claims, as opened wires.
/// It takes no memory.
///
/// # Errors
///
/// Exactly where an equation fails: the first opened wire whose sides differ, with both.
pub fn check_openings(
    wires: &VerifierWires<'_>,
    key: Fe,
    macs: &[Fe],
    claims: &[Fe],
) -> Result<(), OpeningDiffers>
    requires macs { length macs.now ≡ length wires.now.program.opened }
    requires claims { length claims.now ≡ length wires.now.program.opened }
    ensures holds { IfOk result (λ _. AllOpeningsHold (opening_check wires.now key macs.now claims.now)) }
    ensures differs { IfErr result (λ d. OpensFirst (opening_check wires.now key macs.now claims.now) d) }
{
    let _opened = wires.program().opened();
    for (o, mac) in macs.iter().enumerate() {
        check_opening(o as u32, wires.output(o), *mac, claims[o], key)?;
    }
    Ok(())
}

/// Does the same with the keys of a walk that has given its last product.
///
/// # Errors
///
/// As `check_openings`.
pub fn openings_along(
    walk: &VerifierWalk<'_>,
    key: Fe,
    macs: &[Fe],
    claims: &[Fe],
) -> Result<(), OpeningDiffers>
    requires done { length walk.now.side.program.products ≤ walk.now.met }
    requires macs { length macs.now ≡ length walk.now.side.program.opened }
    requires claims { length claims.now ≡ length walk.now.side.program.opened }
    ensures holds { IfOk result (λ _.
        AllOpeningsHold (opening_check walk.now.side key macs.now claims.now)) }
    ensures differs { IfErr result (λ d. OpensFirst (opening_check walk.now.side key macs.now claims.now) d) }
{
    let _opened = walk.program().opened();
    for (o, mac) in macs.iter().enumerate() {
        check_opening(o as u32, walk.output(o), *mac, claims[o], key)?;
    }
    Ok(())
}
