// Leases over disks in memory.
ghost use Rattle.std.specs.Prelude.{◌≡◌, ◌≤◌, ◌+◌, ◌*◌, ◌^◌, ℕ, List, Some, None, IfOk, All};
ghost use Rattle.lease_store.specs.Ceilings.{HasCeilingHeader, HasCeilingRoom};
ghost use Rattle.twin_journal.specs.Starts.{AreTidy};
ghost use Rattle.lease_store.specs.Desks.{Begins};
ghost use Rattle.lease_store.specs.Leases.{IsClosed, IsPassAt};

use crate::tests::ceiling_disks::{new_ceilings, started, sure_ceilings};
use crate::tests::disks::quiet_disk;
use lease_store::{LeaseFault, LeaseName, LeaseParts, LeaseStore, TryFault};
use lease_words::Pass;
use memory_ports::{FailAt, QuietDisk};
use std::alloc::{AllocError, Global};
use std::marker::Brand;
use std::sync::Wait;
use std::test::Fail;
use std::thread::{Threads, join};
use zk_model::Span;
use zk_port::{Disk, Failed};

/// A call of a store.
#[derive(Clone, Copy)]
enum Call {
    Lease(u32),
    Try(u32),
}

/// What a call answers.
#[derive(Clone, Copy, Debug, PartialEq, Eq)]
enum Answer {
    Leased(Span),
    Refused(LeaseFault),
    NotTried(TryFault),
}

fn leased(start: u64, end: u64) -> Answer {
    Answer::Leased(Span { start, end })
}

fn answer_to<N: LeaseName, B: Disk, R: Wait>(
    rt: &R,
    store: &LeaseStore<B, N>,
    pass: &mut Pass,
    call: Call,
) -> Answer
    requires { IsPassAt N.table N.total pass.old }
    ensures { IsPassAt N.table N.total pass.new }
{
    match call {
        Call::Lease(count) => match store.lease(rt, pass, count.clamp(1, 4096)) {
            Ok(span) => Answer::Leased(span),
            Err(fault) => Answer::Refused(fault),
        },
        Call::Try(count) => match store.try_lease(pass, count.clamp(1, 4096)) {
            Ok(span) => Answer::Leased(span),
            Err(fault) => Answer::NotTried(fault),
        },
    }
}

/// What the calls of the one pass of a store answer, and the disk after them.
fn answers_of<N: LeaseName, B: Disk + Drop, R: Wait>(
    rt: &R,
    alloc: Global,
    parts: LeaseParts<B>,
    pass: Pass,
    calls: &[Call],
) -> Result<(Vec<Answer>, B), AllocError>
    requires table { parts.table ≡ N.table }
    requires total { parts.total ≡ N.total }
    requires passes { (parts.passes ≡ N.passes) × (N.passes ≡ 1) }
    requires base { parts.base ≡ N.base }
    requires header { (bytes : List ℕ) → (B.state parts.disk).content ≡ Some bytes
        → HasCeilingHeader N.id N.total bytes }
    requires begins { Begins N.start (B.state parts.disk) }
    requires own { IsPassAt N.table N.total pass }
    ensures { IfOk result (λ r. (passes : List Pass)
        × IsClosed N.start (B.state r.1) N.id N.base N.total passes) }
{
    let store = parts.named::<N>();
    let mut pass = pass;
    let mut answers = Vec::new(alloc);
    for call in calls {
        answers.push(answer_to(rt, &store, &mut pass, *call))?;
    }
    let mut passes = Vec::with_capacity(alloc, 1)?;
    passes.push(pass)?;
    Ok((answers, store.close(passes)))
}

/// What calls of a store of 100 units with one pass answer, and the disk after them.
fn played_over<B: Disk + Drop, R: Wait>(
    rt: &R,
    alloc: Global,
    disk: B,
    calls: &[Call],
) -> Result<(Vec<Answer>, B), Fail>
    requires room { (size : ℕ) → (B.state disk).room ≡ Some size
        → HasCeilingRoom (B.state disk).content size }
    requires tidy { (bytes : List ℕ) → (B.state disk).content ≡ Some bytes → AreTidy bytes }
{
    let (parts, mut passes) = started(alloc, disk, 100, 1)?;
    let Some(pass) = passes.pop() else {
        return Err(Fail::new("there is no pass"));
    };
    let (answers, disk) = answers_of::<Brand, B, R>(rt, alloc, parts, pass, calls)?;
    Ok((answers, disk))
}

/// The same over a new journal on a disk whose calls of these numbers fail.
fn played<R: Wait>(
    rt: &R,
    alloc: Global,
    numbers: &[u64],
    calls: &[Call],
) -> Result<(Vec<Answer>, QuietDisk<FailAt>), Fail> {
    let disk = quiet_disk(alloc, new_ceilings(alloc, 100)?, numbers)?;
    played_over(rt, alloc, disk, calls)
}

#[test]
fn leases_and_tries_are_answered(rt: HostRuntime) -> Result<(), Fail> {
    let alloc: Global = rt.alloc();
    let calls = [
        Call::Try(3),
        Call::Lease(3),
        Call::Try(4),
        Call::Lease(90),
        Call::Lease(1),
        Call::Try(2),
    ];
    let exhausted = LeaseFault::Exhausted {
        at: 100,
        count: 1,
        total: 100,
    };
    let kept = TryFault::Exhausted {
        at: 100,
        count: 1,
        total: 100,
    };
    let (answers, _disk) = played(&rt, alloc, &[], &calls)?;
    assert!(rt;
        answers.as_slice()
            == [
                Answer::NotTried(TryFault::NeedsRoom { end: 3, known: 0 }),
                leased(3, 6),
                leased(6, 10),
                leased(10, 100),
                Answer::Refused(exhausted),
                Answer::NotTried(kept),
            ]
            .as_slice()
    );
    Ok(())
}

#[test]
fn a_close_makes_no_call_of_the_disk(rt: HostRuntime) -> Result<(), Fail> {
    let alloc: Global = rt.alloc();
    // After the seven calls of the start and the four of the put the next one fails.
    let (answers, mut disk) = played(&rt, alloc, &[12], &[Call::Lease(3)])?;
    assert!(rt; answers.as_slice() == [leased(0, 3)].as_slice());
    assert!(rt; disk.faults() == 0);
    // The ceiling is 16, and its second number is 0.
    assert!(rt; disk.disk.bytes().get(96..104) == Some([16, 0, 0, 0, 0, 0, 0, 0].as_slice()));
    assert!(rt; disk.disk.bytes().get(104..127) == Some([0; 23].as_slice()));
    assert!(rt; disk.sync() == Err(Failed));
    Ok(())
}

/// Leases 500 times, as long as it is answered a span.
fn lease_often<N: LeaseName, B: Disk, R: Wait>(
    rt: &R,
    alloc: Global,
    store: &LeaseStore<B, N>,
    mut pass: Pass,
    count: u32,
) -> Result<(Pass, Vec<Span>), AllocError>
    requires own { IsPassAt N.table N.total pass }
    requires count { (1 ≤ count) × (count ≤ 4096) }
    ensures { IfOk result (λ r. IsPassAt N.table N.total r.0) }
{
    let mut spans = Vec::new(alloc);
    for _ in 0..500 {
        match store.lease(rt, &mut pass, count) {
            Ok(span) => spans.push(span)?,
            Err(_) => break,
        }
    }
    Ok((pass, spans))
}

/// Ends a store that has two passes.
fn close_two<N: LeaseName, B: Disk + Drop>(
    alloc: Global,
    store: LeaseStore<B, N>,
    first: Pass,
    second: Pass,
) -> Result<(), AllocError>
    requires own { IsPassAt N.table N.total first × IsPassAt N.table N.total second }
    requires all { N.passes ≡ 2 }
{
    let mut passes = Vec::with_capacity(alloc, 2)?;
    passes.push(first)?;
    passes.push(second)?;
    let _disk = store.close(passes);
    Ok(())
}

/// What two threads lease, 3 and 5 units at a time.
fn lease_by_two<N: LeaseName + Send, B: Disk + Drop + Send, R: Threads + Wait + Sync>(
    rt: &R,
    alloc: Global,
    parts: LeaseParts<B>,
    first: Pass,
    second: Pass,
) -> Result<Vec<Span>, AllocError>
    requires table { parts.table ≡ N.table }
    requires total { parts.total ≡ N.total }
    requires passes { (parts.passes ≡ N.passes) × (N.passes ≡ 2) }
    requires base { parts.base ≡ N.base }
    requires header { (bytes : List ℕ) → (B.state parts.disk).content ≡ Some bytes
        → HasCeilingHeader N.id N.total bytes }
    requires begins { Begins N.start (B.state parts.disk) }
    requires own { IsPassAt N.table N.total first × IsPassAt N.table N.total second }
{
    let store = parts.named::<N>();
    let shared = &store;
    let (one, two) = join(
        rt,
        move || -> Result<(Pass, Vec<Span>), AllocError>
            requires { IsPassAt N.table N.total first }
            ensures { IfOk result (λ r. IsPassAt N.table N.total r.0) }
        { lease_often(rt, alloc, shared, first, 3) },
        move || -> Result<(Pass, Vec<Span>), AllocError>
            requires { IsPassAt N.table N.total second }
            ensures { IfOk result (λ r. IsPassAt N.table N.total r.0) }
        { lease_often(rt, alloc, shared, second, 5) },
    );
    let (first, mut spans) = one?;
    let (second, more) = two?;
    close_two(alloc, store, first, second)?;
    spans.extend_from_slice(&more)?;
    Ok(spans)
}

/// What two threads lease of 4,000 units over this disk.
fn leased_by_two<B: Disk + Drop + Send, R: Threads + Wait + Sync>(
    rt: &R,
    alloc: Global,
    disk: B,
) -> Result<Vec<Span>, Fail>
    requires room { (size : ℕ) → (B.state disk).room ≡ Some size
        → HasCeilingRoom (B.state disk).content size }
    requires tidy { (bytes : List ℕ) → (B.state disk).content ≡ Some bytes → AreTidy bytes }
{
    let (parts, mut passes) = started(alloc, disk, 4000, 2)?;
    let Some(second) = passes.pop() else {
        return Err(Fail::new("there is no pass"));
    };
    let Some(first) = passes.pop() else {
        return Err(Fail::new("there is one pass"));
    };
    Ok(lease_by_two::<Brand, B, _>(rt, alloc, parts, first, second)?)
}

#[test]
fn what_two_threads_lease_tiles(rt: HostRuntime) -> Result<(), Fail> {
    let alloc: Global = rt.alloc();
    let disk = sure_ceilings(alloc, 4000)?;
    let mut spans = leased_by_two(&rt, alloc, disk)?;
    assert!(rt; spans.len() == 1000);
    spans.sort_by_key(|span| span.start)?;
    let mut at = 0;
    for span in &spans {
        assert!(rt; span.start == at);
        at = span.end;
    }
    assert!(rt; at == 4000);
    Ok(())
}
