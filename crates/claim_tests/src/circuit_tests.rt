// Sessions about circuits.
ghost use Rattle.zk_model.specs.Files.{AreParams};

use crate::dialogue::{Held, hold};
use crate::given::{DIRECT, EXTENDED, digest_of};
use bristol_reader::read;
use circuit_session::StatementWitness;
use session_core::{CircuitClaim, elements_of};
use std::alloc::{AllocError, Global};
use std::test::Fail;
use std::thread::Threads;
use zk_model::Params;

/// A chain of so many AND gates, each of the first input and of the gate before.
fn chain_text(alloc: Global, gates: u32) -> Result<String, AllocError> {
    let wires = gates.saturating_add(2);
    let mut text = format!(in alloc; "{gates} {wires}\n2 1 1\n1 1\n\n")?;
    for out in 2..wires {
        let before = out - 1;
        let line = format!(in alloc; "2 1 0 {before} {out} AND\n")?;
        text.push_str(&line)?;
    }
    Ok(text)
}

/// A session about a chain, with two inputs of 1, and this output.
fn held<R: Threads + Sync>(
    rt: &R,
    alloc: Global,
    params: &Params,
    gates: u32,
    output: bool,
) -> Result<Held, Fail>
    requires { AreParams params.now }
{
    let text = chain_text(alloc, gates)?;
    let Ok(circuit) = read(alloc, text.as_bytes()) else {
        return Err(Fail::new("no circuit"));
    };
    if circuit.outputs() != 1 {
        return Err(Fail::new("another number of outputs"));
    }
    let claim = CircuitClaim::new(alloc, circuit, digest_of(text.as_bytes()), &[], &[output])?;
    let statement = claim.statement();
    let inputs = elements_of(alloc, &[true, true])?;
    if statement.program().inputs() != inputs.len() {
        return Err(Fail::new("another number of inputs"));
    }
    let witness = StatementWitness::new(&statement, &inputs);
    hold(rt, alloc, &witness, params, 64)
}

/// Inputs that make a circuit of thousands of gates give the output are accepted, over dealt correlations and over extended ones.
#[test]
fn inputs_that_give_the_output_are_accepted(rt: HostRuntime) -> Result<(), Fail> {
    let alloc: Global = rt.alloc();
    assert!(rt; held(&rt, alloc, &DIRECT, 5000, true)? == Held::both(0, 0));
    assert!(rt; held(&rt, alloc, &EXTENDED, 40, true)? == Held::both(0, 0));
    Ok(())
}

/// Another output is found.
#[test]
fn another_output_is_rejected(rt: HostRuntime) -> Result<(), Fail> {
    let alloc: Global = rt.alloc();
    assert!(rt; held(&rt, alloc, &DIRECT, 5000, false)? == Held::both(2, 0));
    Ok(())
}
