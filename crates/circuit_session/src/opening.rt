// How a prover answers a challenge about a circuit.
ghost use Rattle.std.specs.Prelude.{◌≡◌, ◌+◌, ◌≤◌, length, take, drop, IfOk};
ghost use Rattle.zk_model.specs.Check.{all_sums, opened_pairs};
ghost use Rattle.zk_model.specs.Frames.{AreElements, AreSums};
ghost use Rattle.zk_model.specs.Mac.{macs_of};
ghost use Rattle.zk_model.specs.Program.{correlations_needed, section_count};
ghost use Rattle.circuit_session.specs.Witnesses.{statement_pairs};

use mersenne_field::{Fe, Pair};
use mult_check::sums_along;
use session_core::{Opened, Statement};
use std::alloc::{AllocError, Global};
use wire_auth::ProverWalk;

/// The MACs of the opened wires, of a walk that has given its last product.
fn opened_macs(alloc: Global, walk: &ProverWalk<'_>) -> Result<Vec<Fe>, AllocError>
    requires done { length walk.now.side.program.products ≤ walk.now.met }
    ensures macs { IfOk result (λ macs. macs.items
        ≡ macs_of (opened_pairs walk.now.side.program walk.now.side.pairs)) }
    ensures fit { IfOk result (λ macs. AreElements (length walk.now.side.program.opened) macs.items) }
{
    let opened = walk.program().opened();
    let mut macs = Vec::with_capacity(alloc, opened.len())?;
    for o in 0..opened.len() {
        let mac = walk.output(o).m;
        let _word = mac.value();
        macs.push(mac)?;
    }
    Ok(macs)
}

/// As many pairs as there are sections, after those of the given values: the masks.
fn masks_of(pairs: &[Pair], givens: usize, sections: usize) -> &[Pair]
    requires { givens + sections ≤ length pairs.now }
    ensures masks { result.now ≡ take sections (drop givens pairs.now) }
    ensures count { length result.now ≡ sections }
{
    &pairs[givens..givens + sections]
}

/// The sums of all sections and the MACs of the opened wires, of the pairs that values of a statement's inputs make.
///
/// # Errors
///
/// Only where memory runs out.
pub(crate) fn open_statement(
    alloc: Global,
    statement: &Statement<'_>,
    inputs: &[Fe],
    pairs: &[Pair],
    section: u32,
    challenge: Fe,
) -> Result<Opened, AllocError>
    requires some { 1 ≤ section }
    requires inputs { length inputs.now ≡ statement.now.program.inputs }
    requires enough { correlations_needed statement.now.program section ≤ length pairs.now }
    ensures sums { IfOk result (λ o. o.sums.items
        ≡ all_sums statement.now.program section challenge (statement_pairs statement.now inputs.now pairs.now)
        (drop statement.now.program.givens pairs.now)) }
    ensures sums_fit { IfOk result (λ o. AreSums (section_count statement.now.program section) o.sums.items) }
    ensures openings { IfOk result (λ o. o.openings.items
        ≡ macs_of (opened_pairs statement.now.program (statement_pairs statement.now inputs.now pairs.now))) }
    ensures openings_fit { IfOk result (λ o. AreElements (length statement.now.program.opened) o.openings.items) }
{
    let program = statement.program();
    let plan = statement.plan();
    let public = statement.public();
    let section_length = u64::from(section);
    let sections = program.sections(section_length) as usize;
    let masks = masks_of(pairs, program.givens(), sections);
    let mut walk = ProverWalk::new(alloc, program, plan, public, inputs, pairs)?;
    let sums = sums_along(alloc, &mut walk, section_length, challenge, masks)?;
    let openings = opened_macs(alloc, &walk)?;
    Ok(Opened { sums, openings })
}
