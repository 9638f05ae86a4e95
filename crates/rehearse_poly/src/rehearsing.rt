// A rehearsal of constraints at values that meet them.
ghost use Rattle.std.specs.Prelude.{◌≡◌, ◌≤◌, IfErr, IfOk, OnOk, length, string_bytes};
ghost use Rattle.zk_model.specs.Bytes.{AreBytes};
ghost use Rattle.zk_model.specs.declared.limits.TheConstants.{MAX_SECTION_LENGTH};
ghost use Rattle.zk_port.specs.Changes.{change};
ghost use Rattle.poly_model.specs.declared.limits.TheConstants.{MAX_VARIABLES};
ghost use Rattle.command_words.specs.Commands.{rehearse_poly_of};
ghost use Rattle.claim_files.specs.ArithFiles.{IsEither};
ghost use Rattle.file_commands.specs.Effects.{OnlyLoads};
ghost use Rattle.claim_rehearsal.specs.ClaimRehearsals.{IsClaimRehearsal};
ghost use Rattle.rehearse_poly.specs.PolyRuns.{IsPolyRehearsal, PolyRehearseStop, TakesTooMany, poly_knowledge};

use claim_rehearsal::{ClaimRehearsal, ClaimRehearseFault, rehearse_claim};
use command_words::RehearsePolyAsk;
use element_file::elements_are_exact;
use file_commands::Refusal;
use poly_files::{PolyValues, load_poly_values};
use poly_laws::honest_sums_hold;
use poly_session::PolyWitness;
use std::alloc::Global;
use std::thread::Threads;
use zk_model::Kind;
use zk_port::Shelf;

/// A rehearsal, and how many variables and constraints there are, and their degree.
#[derive(Drop)]
pub(crate) struct PolyRehearsal {
    pub(crate) variables: u32,
    pub(crate) constraints: u64,
    pub(crate) degree: u64,
    pub(crate) rehearsal: ClaimRehearsal,
}

/// A rehearsal of constraints at values for them.
fn rehearse_values<R: Threads + Sync>(
    rt: &R,
    alloc: Global,
    known: &PolyValues,
    kind: Kind,
    section: u32,
    seed: &[u8; 32],
) -> Result<ClaimRehearsal, Refusal>
    requires at_least_one { 1 ≤ section }
    requires at_most { section ≤ MAX_SECTION_LENGTH }
    requires octets { AreBytes 32 known.now.constraints.digest }
    requires few { known.now.constraints.polys.variables ≤ MAX_VARIABLES }
    requires counted { length known.now.values.items ≡ known.now.constraints.polys.variables }
    ensures rehearsed { IfOk result (IsClaimRehearsal
        (poly_knowledge known.now.constraints.polys known.now.constraints.digest known.now.values.items) kind section seed.now) }
    ensures stop { IfErr result (TakesTooMany known.now.constraints.polys kind) }
{
    let constraints = &known.constraints;
    let witness = PolyWitness::new(&constraints.polys, constraints.digest, &known.values);
    match rehearse_claim(rt, alloc, &witness, kind, section, seed) {
        Ok(rehearsal) => Ok(rehearsal),
        Err(ClaimRehearseFault::TooLarge { need, units }) => Err(Refusal::TooLarge { need, units }),
        Err(ClaimRehearseFault::NoMemory) => Err(Refusal::NoMemory),
    }
}

/// A rehearsal of the constraints of one file at the values of another, which is accepted.
pub(crate) fn rehearse_files<R: Threads + Sync, F: Shelf>(
    rt: &R,
    alloc: Global,
    shelf: &mut F,
    ask: &RehearsePolyAsk<String>,
    seed: &[u8; 32],
) -> Result<PolyRehearsal, Refusal>
    requires at_least_one { 1 ≤ ask.now.section }
    requires at_most { ask.now.section ≤ MAX_SECTION_LENGTH }
    ensures rehearsed { IfOk result (IsPolyRehearsal (F.state shelf.old).told (rehearse_poly_of ask.now) seed.now) }
    ensures stop { IfErr result (PolyRehearseStop (rehearse_poly_of ask.now)
        (change (F.state shelf.old) (F.state shelf.new))) }
    ensures kept { OnlyLoads (IsEither (string_bytes ask.now.text) (string_bytes ask.now.values))
        (change (F.state shelf.old) (F.state shelf.new)) }
    ensures quiet { OnOk result (F.state shelf.new ≡ F.state shelf.old) }
{
    honest_sums_hold();
    elements_are_exact();
    let known = load_poly_values(alloc, shelf, &ask.text, &ask.values)?;
    let rehearsal = rehearse_values(rt, alloc, &known, ask.kind, ask.section, seed)?;
    let polys = &known.constraints.polys;
    Ok(PolyRehearsal {
        variables: polys.variables(),
        constraints: polys.polynomials().len() as u64,
        degree: polys.degree() as u64,
        rehearsal,
    })
}
