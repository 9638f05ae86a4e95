// Wires and slots of small circuits, at rows that the program did not make.
use crate::given::AND;
use crate::made::{program_of, small, small_pair};
use field_program::SlotPlan;
use mult_check::check_openings;
use std::alloc::Global;
use std::test::Fail;
use wire_auth::{Correlations, ProverWires, VerifierWires};

#[test]
fn a_correction_changes_the_value_and_the_key(rt: HostRuntime) -> Result<(), Fail> {
    let alloc = rt.alloc();
    let program = program_of(alloc, b"0 1 1 1 1 1")?;
    let key = small(5);
    let pairs = [small_pair(3, 4)];
    let keys = [small(19)];
    if program.public() != 0 || program.inputs() != 1 {
        return Err(Fail::new("other inputs"));
    }
    if program.givens() != 1 || program.opened().len() != 1 {
        return Err(Fail::new("another program"));
    }
    let dealt = Correlations::Dealt(&pairs);
    let (prover, corrections) = ProverWires::run(alloc, &program, &[], &[small(1)], dealt)?;
    assert_eq!(rt; corrections.as_slice(), [small((1 << 61) - 3)].as_slice());
    assert_eq!(rt; prover.output(0), small_pair(1, 4));
    let verifier = VerifierWires::run(alloc, &program, &[], &keys, key, &corrections)?;
    assert_eq!(rt; verifier.output(0), small(9));
    assert!(rt; check_openings(&verifier, key, &[small(4)], &[small(1)]).is_ok());
    let Err(differs) = check_openings(&verifier, key, &[small(4)], &[small(0)]) else {
        return Err(Fail::new("a wrong claim opens"));
    };
    assert_eq!(rt;
        (differs.output, differs.left, differs.right),
        (0, small(9), small(4))
    );
    Ok(())
}

/// The slots of a circuit's text.
fn slots_of(alloc: Global, text: &str) -> Result<usize, Fail> {
    let program = program_of(alloc, text.as_bytes())?;
    let plan = SlotPlan::of(alloc, &program)?;
    Ok(plan.slots())
}

/// A chain of 1,000 gates INV on one input.
fn long_chain(alloc: Global) -> Result<String, Fail> {
    let mut text = "1000 1001\n1 1\n1 1\n\n".to_string(alloc)?;
    for wire in 0..1000_u32 {
        let line = format!(in alloc; "1 1 {wire} {} INV\n", wire + 1)?;
        text.push_str(&line)?;
    }
    Ok(text)
}

#[test]
fn slots_are_as_many_as_wires_that_are_live_at_once(rt: HostRuntime) -> Result<(), Fail> {
    let alloc = rt.alloc();
    for (text, slots) in [
        (AND, 3),
        // No gate.
        ("0 1\n1 1\n1 1\n", 1),
        // Two gates on one input, and the first gives a wire that nothing needs.
        ("2 3\n1 1\n1 1\n\n1 1 0 1 INV\n1 1 0 2 INV\n", 2),
        // The same, but all wires are outputs, the input too.
        ("2 3\n1 1\n1 3\n\n1 1 0 1 INV\n1 1 0 2 INV\n", 3),
    ] {
        assert_eq!(rt; slots_of(alloc, text)?, slots, "{text}");
    }
    let chain = long_chain(alloc)?;
    assert_eq!(rt; slots_of(alloc, &chain)?, 2);
    Ok(())
}
