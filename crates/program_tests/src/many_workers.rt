// Sums and checks along a walk, by one worker and by more, and sums of wires that are all held.
ghost use Rattle.std.specs.Prelude.{◌≡◌, ◌≤◌, true};
ghost use Rattle.zk_model.specs.Program.{section_count};
ghost use Rattle.zk_model.specs.Slots.{IsPlanOf};
ghost use Rattle.program_tests.specs.declared.many_workers.TheConstants.{SECTION};

use crate::made::{program_of, small, small_pair};
use field_program::{FieldProgram, SlotPlan};
use mersenne_field::{Fe, Pair};
use mult_check::{SentSums, StreamFault, prover_sums, stream_check, stream_sums};
use std::alloc::Global;
use std::test::Fail;
use std::thread::Threads;
use wire_auth::{Correlations, ProverWalk, ProverWires, VerifierWalk};

/// How many workers there are, besides one.
const WORKERS: [u32; 4] = [2, 3, 4, 16];

/// How many products there are: two inputs, and 5,000 gates.
const PRODUCTS: u64 = 5002;

/// How many products a section has: the first section has enough of them to be shared, the last has not.
const SECTION: u64 = 4500;

/// The challenge.
fn challenge() -> Fe {
    Fe::from_word(0x1b87_3593_cc9e_2d51)
}

/// The program of a circuit of two inputs and 5,000 gates XOR, each of the two wires before it.
fn xor_chain(alloc: Global) -> Result<FieldProgram, Fail> {
    let mut text = "5000 5002\n1 2\n1 1\n\n".to_string(alloc)?;
    for wire in 0..5000_u32 {
        let line = format!(in alloc; "2 1 {wire} {} {} XOR\n", wire + 1, wire + 2)?;
        text.push_str(&line)?;
    }
    program_of(alloc, text.as_bytes())
}

/// Elements that are far apart, one for each product.
fn elements(alloc: Global, factor: u64) -> Result<Vec<Fe>, Fail> {
    let elements: Vec<Fe> = (0..PRODUCTS)
        .map(|i| Fe::from_word((i + 1).wrapping_mul(factor)))
        .collect(alloc)?;
    Ok(elements)
}

/// Pairs of such elements.
fn dealt_pairs(alloc: Global) -> Result<Vec<Pair>, Fail> {
    let values = elements(alloc, 0x9e37_79b9_7f4a_7c15)?;
    let macs = elements(alloc, 0xbf58_476d_1ce4_e5b9)?;
    let pairs: Vec<Pair> = values
        .iter()
        .zip(&macs)
        .map(|(x, m)| Pair { x: *x, m: *m })
        .collect(alloc)?;
    Ok(pairs)
}

/// Whether it is such a program, with as many correlations as it takes and two sections.
fn is_chain(program: &FieldProgram, given: usize) -> bool
    ensures public { result ≡ true → program.now.public ≡ 0 }
    ensures inputs { result ≡ true → program.now.inputs ≡ 2 }
    ensures given { result ≡ true → program.now.givens ≤ given }
    ensures sections { result ≡ true → section_count program.now SECTION ≡ 2 }
{
    let fits = program.public() == 0 && program.inputs() == 2 && program.givens() <= given;
    fits && program.sections(SECTION) == 2
}

/// The prover's sums, by so many workers.
fn sums_by<R: Threads + Sync>(
    rt: &R,
    alloc: Global,
    program: &FieldProgram,
    plan: &SlotPlan,
    dealt: &[Pair],
    workers: u32,
) -> Result<Vec<(Fe, Fe)>, Fail>
    requires plan { IsPlanOf program.now plan.now }
    requires some { 1 ≤ workers }
{
    if !is_chain(program, dealt.len()) {
        return Err(Fail::new("another program"));
    }
    let inputs = [small(1), small(0)];
    let masks = [small_pair(4, 9), small_pair(5, 6)];
    let mut walk = ProverWalk::new(alloc, program, plan, &[], &inputs, dealt)?;
    let sums = stream_sums(rt, alloc, &mut walk, SECTION, challenge(), &masks, workers)?;
    Ok(sums)
}

/// The prover's sums of wires that are all held.
fn sums_held(alloc: Global, program: &FieldProgram, dealt: &[Pair]) -> Result<Vec<(Fe, Fe)>, Fail> {
    if !is_chain(program, dealt.len()) {
        return Err(Fail::new("another program"));
    }
    let inputs = [small(1), small(0)];
    let masks = [small_pair(4, 9), small_pair(5, 6)];
    let dealt = Correlations::Dealt(dealt);
    let (wires, _corrections) = ProverWires::run(alloc, program, &[], &inputs, dealt)?;
    let sums = prover_sums(alloc, &wires, SECTION, challenge(), &masks)?;
    Ok(sums)
}

/// What a verifier finds that is sent 0 for all sums, by so many workers.
fn found_by<R: Threads + Sync>(
    rt: &R,
    alloc: Global,
    program: &FieldProgram,
    plan: &SlotPlan,
    keys: &[Fe],
    corrections: &[Fe],
    workers: u32,
) -> Result<StreamFault, Fail>
    requires plan { IsPlanOf program.now plan.now }
    requires some { 1 ≤ workers }
{
    if !is_chain(program, keys.len()) || program.givens() != corrections.len() {
        return Err(Fail::new("another program"));
    }
    let masks = [small(8), small(13)];
    let sums = [(Fe::ZERO, Fe::ZERO); 2];
    let key = small(5);
    let mut walk = VerifierWalk::new(alloc, program, plan, &[], keys, key, corrections)?;
    let sent = SentSums {
        section_length: SECTION,
        challenge: challenge(),
        mask_keys: &masks,
        key,
        sums: &sums,
    };
    let checked = stream_check(rt, alloc, &mut walk, &sent, workers);
    let Err(fault) = checked else {
        return Err(Fail::new("wrong sums are taken"));
    };
    Ok(fault)
}

#[test]
fn sums_along_a_walk_are_the_same_by_all_workers(rt: HostRuntime) -> Result<(), Fail> {
    let alloc = rt.alloc();
    let program = xor_chain(alloc)?;
    let plan = SlotPlan::of(alloc, &program)?;
    let dealt = dealt_pairs(alloc)?;
    let alone = sums_by(&rt, alloc, &program, &plan, &dealt, 1)?;
    let held = sums_held(alloc, &program, &dealt)?;
    assert_eq!(rt; held.as_slice(), alone.as_slice());
    for workers in WORKERS {
        let sums = sums_by(&rt, alloc, &program, &plan, &dealt, workers)?;
        assert_eq!(rt; sums.as_slice(), alone.as_slice(), "{workers}");
    }
    Ok(())
}

#[test]
fn a_check_along_a_walk_finds_the_same_by_all_workers(rt: HostRuntime) -> Result<(), Fail> {
    let alloc = rt.alloc();
    let program = xor_chain(alloc)?;
    let plan = SlotPlan::of(alloc, &program)?;
    let keys = elements(alloc, 0x94d0_49bb_1331_11eb)?;
    let corrections = elements(alloc, 0xd6e8_feb8_6659_fd93)?;
    let alone = found_by(&rt, alloc, &program, &plan, &keys, &corrections, 1)?;
    assert!(rt; matches!(alone, StreamFault::Differs(_)));
    for workers in WORKERS {
        let found = found_by(&rt, alloc, &program, &plan, &keys, &corrections, workers)?;
        assert_eq!(rt; found, alone, "{workers}");
    }
    Ok(())
}
