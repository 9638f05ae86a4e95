// A rehearsal: files from a seed, and a session of both ends over them.
ghost use Rattle.std.specs.Prelude.{◌≡◌, ◌≤◌, ◌^◌, ℕ, List, ◌++◌, length, IfOk, IfErr, IfSome};
ghost use Rattle.zk_model.specs.Boolean.{private_inputs};
ghost use Rattle.zk_model.specs.Circuit.{AreWireBits};
ghost use Rattle.dealer_files.specs.Dealing.{dealt_prover, dealt_verifier};
ghost use Rattle.zk_model.specs.HonestProver.{IsWitness};
ghost use Rattle.zk_model.specs.Program.{correlations_needed, opened_values};
ghost use Rattle.zk_model.specs.Transcript.{units_for};
ghost use Rattle.zk_model.specs.declared.Kind.{Kind};
ghost use Rattle.zk_model.specs.declared.Side.{Side};
ghost use Rattle.wire_auth.specs.Values.{given_made};
ghost use Rattle.session_core.specs.Ends.{whole_grant};
ghost use Rattle.session_rehearsal.specs.Exchanges.{IsExchangeNoted, IsShortExchange};
ghost use Rattle.session_core.specs.Jobs.{AreWitnessValues};
ghost use Rattle.session_rehearsal.specs.Holding.{IsRehearsedSession, ends_with};
ghost use Rattle.session_rehearsal.specs.Rehearsals.{AboutCause, IsRehearsalAbout, IsRehearsalOf, RehearseCause, AreRehearsedFiles, rehearsed_params};
ghost use Rattle.zk_model.specs.declared.limits.TheConstants.{MAX_SECTION_LENGTH, MAX_UNITS};

use crate::bits::Bits;
use crate::exchange::{SessionValues, run_session};
use crate::noting::note;
use crate::rehearsal::{Rehearsal, RehearseFault};
use bool_eval::{EvalFault, eval_wires, output_bits};
use bristol_reader::Circuit;
use circuit_laws::{bits_solve, one_outcome};
use dealer_files::deal;
use mersenne_field::Fe;
use session_core::{CircuitClaim, Statement, WireValues, elements_of, units_for};
use std::alloc::{AllocError, Global};
use std::thread::Threads;
use wire_auth::bits_make_products;
use zk_laws::honest_session_is_accepted;
use zk_model::{Kind, MAX_UNITS, Params};

/// What the files of a rehearsal are dealt for: this many units, in kind extended with 8 trees of height 10 and 64 base
/// correlations for the code.
pub fn rehearsed_params(kind: Kind, total: u64) -> Params
    ensures { result ≡ rehearsed_params kind total }
{
    let (height, trees, base) = match kind {
        Kind::Direct => (0, 0, 0),
        Kind::Extended => (10, 8, 64),
    };
    Params {
        kind,
        height,
        trees,
        base,
        total,
    }
}

/// All that passes in a session over this many units, which are dealt from the seed.
fn exchange_dealt<R: Threads + Sync>(
    rt: &R,
    alloc: Global,
    statement: &Statement<'_>,
    inputs: &[Fe],
    wires: WireValues,
    kind: Kind,
    section: u32,
    units: u64,
    seed: &[u8; 32],
) -> Result<SessionValues, AllocError>
    requires at_least_one { 1 ≤ section }
    requires at_most { section ≤ MAX_SECTION_LENGTH }
    requires inputs { length inputs.now ≡ statement.now.program.inputs }
    requires wires { AreWitnessValues
        (given_made statement.now.program statement.now.public inputs.now) statement.now.program wires }
    requires units { units
        ≡ units_for (rehearsed_params kind 0) (correlations_needed statement.now.program section) }
    requires units_some { 1 ≤ units }
    requires units_most { units ≤ MAX_UNITS }
    ensures held { IfOk result (λ e. (log : List (Side × ℕ)) → IsExchangeNoted e log
        → IsRehearsedSession (ends_with statement.now inputs.now
        (dealt_prover (rehearsed_params kind units) seed.now)
        (dealt_verifier (rehearsed_params kind units) seed.now))
        (whole_grant units section) e.verdict log) }
    ensures short { IfOk result IsShortExchange }
    ensures files { IfOk result (λ _. AreRehearsedFiles kind units seed.now) }
{
    let params = rehearsed_params(kind, units);
    let (prover, verifier) = deal(alloc, &params, seed)?;
    let exchange = run_session(
        rt, alloc, statement, inputs, wires, prover, &verifier, section,
    )?;
    Ok(exchange)
}

/// A rehearsal about a statement, whose prover has these values of its inputs: the seed's files of this kind, as many units as the session
/// takes, and both ends over a log. What makes its given values comes beside them.
pub(crate) fn rehearse_about<R: Threads + Sync, O: Drop>(
    rt: &R,
    alloc: Global,
    statement: &Statement<'_>,
    inputs: &[Fe],
    wires: WireValues,
    outputs: O,
    kind: Kind,
    section: u32,
    seed: &[u8; 32],
) -> Result<Rehearsal<O>, RehearseFault>
    requires at_least_one { 1 ≤ section }
    requires at_most { section ≤ MAX_SECTION_LENGTH }
    requires inputs { length inputs.now ≡ statement.now.program.inputs }
    requires wires { AreWitnessValues
        (given_made statement.now.program statement.now.public inputs.now) statement.now.program wires }
    ensures outputs { IfOk result (λ r. r.outputs ≡ outputs) }
    ensures done { IfOk result (λ r. (wires given : List ℕ)
        → IsWitness statement.now inputs.now wires given
        → opened_values statement.now.program wires ≡ statement.now.claims
        → IsRehearsalAbout statement.now inputs.now kind section seed.now r) }
    ensures cause { IfErr result (AboutCause statement.now kind section) }
{
    honest_session_is_accepted();
    let g = u64::from(section);
    let program = statement.program();
    let need = program.need(g);
    let units = units_for(&rehearsed_params(kind, 1), need);
    if units > MAX_UNITS {
        return Err(RehearseFault::TooLarge { need, units });
    }
    let exchange = exchange_dealt(
        rt, alloc, statement, inputs, wires, kind, section, units, seed,
    )?;
    let log = note(alloc, &exchange)?;
    Ok(Rehearsal {
        outputs,
        products: program.products() as u64,
        sections: program.sections(g),
        need,
        units,
        verdict: exchange.verdict,
        log,
    })
}

/// The bits that a circuit has on all its wires at these inputs, public ones and then private ones, which must be as many as
/// there are (else [`RehearseFault::WrongLength`]).
fn wires_at(
    alloc: Global,
    circuit: &Circuit,
    public: &[bool],
    bits: &[bool],
) -> Result<Vec<bool>, RehearseFault>
    requires { length public.now ≤ circuit.now.inputs }
    ensures wires { IfOk result (λ wires.
        AreWireBits circuit.now (public.now ++ bits.now) wires.items) }
    ensures length { IfOk result (λ _. length bits.now ≡ private_inputs (length public.now) circuit.now) }
    ensures cause { IfErr result (λ fault. (kind : Kind) (section : ℕ)
        → RehearseCause circuit.now public.now bits.now kind section fault) }
{
    let need = circuit.inputs() - public.len();
    let got = bits.len();
    if need != got {
        let (need, got) = (need as u64, got as u64);
        return Err(RehearseFault::WrongLength { need, got });
    }
    let mut inputs = public.to_vec(alloc)?;
    inputs.extend_from_slice(bits)?;
    // There are as many bits as inputs, so memory alone can be missing.
    match eval_wires(alloc, circuit, &inputs) {
        Ok(wires) => Ok(wires),
        Err(EvalFault::WrongLength { .. } | EvalFault::NoMemory) => Err(RehearseFault::NoMemory),
    }
}

/// Rehearses a session in which the prover claims what the circuit gives at these bits, public ones and then private ones: the
/// seed's files of this kind, as many units as the session takes, and both ends over a log. The circuit becomes the
/// program once its outputs are known. The private bits must be as many as the circuit's inputs that are not public (else
/// [`RehearseFault::WrongLength`]), and the units 4,096 at most (else [`RehearseFault::TooLarge`]).
pub fn rehearse<R: Threads + Sync>(
    rt: &R,
    alloc: Global,
    circuit: Circuit,
    public: &[bool],
    bits: &[bool],
    kind: Kind,
    section: u32,
    seed: &[u8; 32],
) -> Result<Rehearsal<Bits>, RehearseFault>
    requires public { length public.now ≤ circuit.inputs }
    requires at_least_one { 1 ≤ section }
    requires at_most { section ≤ MAX_SECTION_LENGTH }
    ensures done { IfOk result (IsRehearsalOf circuit public.now bits.now kind section seed.now) }
    ensures cause { IfErr result (RehearseCause circuit public.now bits.now kind section) }
{
    bits_make_products();
    bits_solve();
    one_outcome();
    let _wires = circuit.wires();
    let wires = wires_at(alloc, &circuit, public, bits)?;
    let outputs = Bits::copied(alloc, output_bits(&circuit, &wires))?;
    let claim = CircuitClaim::new(alloc, circuit, [0; 32], public, outputs.as_slice())?;
    let inputs = elements_of(alloc, bits)?;
    let statement = claim.statement();
    let wires = WireValues::Bits(wires);
    let rehearsal = rehearse_about(
        rt, alloc, &statement, &inputs, wires, outputs, kind, section, seed,
    )?;
    Ok(rehearsal)
}
