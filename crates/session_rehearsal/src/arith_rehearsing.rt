// A rehearsal of an arithmetic circuit.
ghost use Rattle.std.specs.Prelude.{◌≡◌, ◌≤◌, ℕ, List, length, IfOk, IfErr};
ghost use Rattle.zk_model.specs.Arithmetic.{Arith, SatisfiesElements};
ghost use Rattle.zk_model.specs.Statement.{arith_statement};
ghost use Rattle.zk_model.specs.declared.Kind.{Kind};
ghost use Rattle.zk_model.specs.declared.limits.TheConstants.{MAX_SECTION_LENGTH};
ghost use Rattle.arith_eval.specs.Answers.{IsCause};
ghost use Rattle.session_rehearsal.specs.Rehearsals.{AboutCause, ArithRehearseCause, IsArithRehearsalOf, no_digest};

use crate::elements::Elements;
use crate::rehearsal::{ArithRehearseFault, Rehearsal, RehearseFault};
use crate::rehearsing::rehearse_about;
use arith_eval::{ArithEvalFault, Satisfied, output_elements, satisfying_wires};
use arith_laws::one_list;
use arith_reader::Arith;
use mersenne_field::Fe;
use session_core::{CircuitClaim, WireValues, computed_elements_prove};
use std::alloc::Global;
use std::thread::Threads;
use zk_model::Kind;

/// Why there is no rehearsal of a circuit that gives no outputs.
fn eval_stop(fault: ArithEvalFault) -> ArithRehearseFault
    ensures { (circuit : Arith) (values : List ℕ) (kind : Kind) (section : ℕ)
        → IsCause circuit values fault → ArithRehearseCause circuit values kind section result }
{
    match fault {
        ArithEvalFault::WrongLength { need, got } => ArithRehearseFault::WrongLength {
            need: need as u64,
            got: got as u64,
        },
        ArithEvalFault::AssertFailed { assert, value } => {
            ArithRehearseFault::AssertFailed { assert, value }
        }
        ArithEvalFault::NoMemory => ArithRehearseFault::NoMemory,
    }
}

/// Why there is none where one about its statement fails.
fn about_stop(fault: RehearseFault) -> ArithRehearseFault
    ensures { (circuit : Arith) (values outputs : List ℕ) (kind : Kind) (section : ℕ)
        → SatisfiesElements circuit values outputs
        → AboutCause (arith_statement circuit no_digest outputs) kind section fault
        → ArithRehearseCause circuit values kind section result }
{
    match fault {
        RehearseFault::TooLarge { need, units } => ArithRehearseFault::TooLarge { need, units },
        // There are as many values as inputs by then.
        RehearseFault::WrongLength { .. } | RehearseFault::NoMemory => ArithRehearseFault::NoMemory,
    }
}

/// Rehearses a session in which the prover claims what the arithmetic circuit gives at these values of its inputs, and that they meet its
/// assertions: the seed's files of this kind, as many units as the session takes, and both ends over a log. The circuit becomes the program
/// once its outputs are known.
///
/// # Errors
///
/// `WrongLength` where there are not as many values as inputs; `AssertFailed` where an assertion is not met, with the first;
/// `TooLarge` where the session takes more than 4,096 units; `NoMemory`.
pub fn rehearse_arith<R: Threads + Sync>(
    rt: &R,
    alloc: Global,
    circuit: Arith,
    values: &[Fe],
    kind: Kind,
    section: u32,
    seed: &[u8; 32],
) -> Result<Rehearsal<Elements>, ArithRehearseFault>
    requires at_least_one { 1 ≤ section }
    requires at_most { section ≤ MAX_SECTION_LENGTH }
    ensures done { IfOk result (IsArithRehearsalOf circuit values.now kind section seed.now) }
    ensures cause { IfErr result (ArithRehearseCause circuit values.now kind section) }
{
    computed_elements_prove();
    one_list();
    let _wires = circuit.wires();
    let Satisfied { elements, given } = match satisfying_wires(alloc, &circuit, values) {
        Ok(satisfied) => satisfied,
        Err(fault) => return Err(eval_stop(fault)),
    };
    let outputs = Elements::copied(alloc, output_elements(&circuit, &elements))?;
    // The session's lists may take its place.
    drop(elements);
    let claim = CircuitClaim::of_arith(alloc, circuit, [0; 32], outputs.as_slice())?;
    let statement = claim.statement();
    let wires = WireValues::Given(given);
    match rehearse_about(
        rt, alloc, &statement, values, wires, outputs, kind, section, seed,
    ) {
        Ok(rehearsal) => Ok(rehearsal),
        Err(fault) => Err(about_stop(fault)),
    }
}
