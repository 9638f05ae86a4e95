// Draws from the lease words, of one thread and of two.
ghost use Rattle.std.specs.Prelude.{◌≡◌, ◌≤◌, length, IfOk, All};
ghost use Rattle.lease_words.specs.Calls.{journal_view, IsPassOf, IsSeatOf};

use crate::tests::noted::{Noted, noted_words};
use lease_words::{Exhausted, JournalSeat, Pass, Words};
use std::alloc::{AllocError, Global};
use std::test::Fail;
use std::thread::{Threads, join};
use zk_model::Span;

/// Draws as often as asked.
fn draw_often(
    alloc: Global,
    words: &Words<Noted>,
    mut pass: Pass,
    times: u32,
    count: u32,
) -> Result<(Pass, Vec<Span>), AllocError>
    requires { IsPassOf words.now pass × (1 ≤ count) × (count ≤ 4096) }
    ensures { IfOk result (λ r. IsPassOf words.now r.0) }
{
    let mut spans = Vec::new(alloc);
    for _ in 0..times {
        match words.draw(&mut pass, count) {
            Ok(span) => spans.push(span)?,
            Err(_) => break,
        }
    }
    Ok((pass, spans))
}

fn gather_two(
    alloc: Global,
    words: Words<Noted>,
    seat: JournalSeat<Noted>,
    first: Pass,
    second: Pass,
) -> Result<(), AllocError>
    requires own { IsPassOf words first × IsPassOf words second × IsSeatOf words seat }
    requires all { (journal_view seat).made ≡ 2 }
{
    let mut passes = Vec::with_capacity(alloc, 2)?;
    passes.push(first)?;
    passes.push(second)?;
    words.gather(seat, passes);
    Ok(())
}

/// Two threads draw from a pass each, and all that they drew comes back.
fn draw_by_two<R: Threads + Sync>(
    rt: &R,
    alloc: Global,
    words: Words<Noted>,
    seat: JournalSeat<Noted>,
    first: Pass,
    second: Pass,
) -> Result<Vec<Span>, AllocError>
    requires own { IsPassOf words first × IsPassOf words second × IsSeatOf words seat }
    requires all { (journal_view seat).made ≡ 2 }
{
    let shared = &words;
    let (one, two) = join(
        rt,
        move || -> Result<(Pass, Vec<Span>), AllocError>
            requires { IsPassOf shared.now first }
            ensures { IfOk result (λ r. IsPassOf shared.entry.now r.0) }
        { draw_often(alloc, shared, first, 1000, 3) },
        move || -> Result<(Pass, Vec<Span>), AllocError>
            requires { IsPassOf shared.now second }
            ensures { IfOk result (λ r. IsPassOf shared.entry.now r.0) }
        { draw_often(alloc, shared, second, 1000, 5) },
    );
    let (first, mut spans) = one?;
    let (second, more) = two?;
    gather_two(alloc, words, seat, first, second)?;
    spans.extend_from_slice(&more)?;
    Ok(spans)
}

#[test]
fn what_two_threads_draw_tiles(rt: HostRuntime) -> Result<(), Fail> {
    let (words, seat, mut passes) = noted_words(rt.alloc(), 16, 1 << 20, 2)?;
    let Some(second) = passes.pop() else {
        panic!(rt; "two passes")
    };
    let Some(first) = passes.pop() else {
        panic!(rt; "two passes")
    };
    let mut spans = draw_by_two(&rt, rt.alloc(), words, seat, first, second)?;
    assert_eq!(rt; spans.len(), 2000);
    spans.sort_by_key(|span| span.start)?;
    let mut at = 16;
    for span in &spans {
        assert_eq!(rt; span.start, at);
        at = span.end;
    }
    assert_eq!(rt; at, 16 + 8000);
    Ok(())
}

#[test]
fn a_refused_pass_is_refused_again(rt: HostRuntime) -> Result<(), Fail> {
    let (words, seat, mut passes) = noted_words(rt.alloc(), 0, 10, 2)?;
    let Some(mut other) = passes.pop() else {
        panic!(rt; "two passes")
    };
    let Some(mut pass) = passes.pop() else {
        panic!(rt; "two passes")
    };
    assert!(rt; drew(words.draw(&mut pass, 4), 0, 4));
    assert!(rt; drew(words.draw(&mut pass, 4), 4, 8));
    assert!(rt; was_refused(words.draw(&mut pass, 4), 8, 4));
    assert!(rt; was_refused(words.draw(&mut pass, 1), 8, 4));
    assert!(rt; was_refused(words.draw(&mut other, 1), 12, 1));
    let ceiling = words.look(&mut other);
    let mark = words.marked(&mut other);
    assert!(rt; ceiling == 0 && mark == 0);
    gather_two(rt.alloc(), words, seat, pass, other)?;
    Ok(())
}

fn drew(answer: Result<Span, Exhausted>, start: u64, end: u64) -> bool {
    match answer {
        Ok(span) => span.start == start && span.end == end,
        Err(_) => false,
    }
}

fn was_refused(answer: Result<Span, Exhausted>, at: u64, count: u32) -> bool {
    match answer {
        Ok(_) => false,
        Err(refused) => refused.at == at && refused.count == count && refused.total == 10,
    }
}

#[test]
fn passes_see_the_ceiling_and_the_mark(rt: HostRuntime) -> Result<(), Fail> {
    let (words, mut seat, mut passes) = noted_words(rt.alloc(), 0, 100, 1)?;
    let Some(mut pass) = passes.pop() else {
        panic!(rt; "one pass")
    };
    assert!(rt; words.look(&mut pass) == 0);
    assert!(rt; drew(words.draw(&mut pass, 3), 0, 3));
    let receipt = words.receipt(&mut pass);
    words.learn(&mut seat, receipt);
    assert!(rt; seat.store(16).is_ok());
    words.raise(&mut seat, 16);
    let ceiling = words.look(&mut pass);
    let mark = words.marked(&mut pass);
    assert!(rt; ceiling == 16 && mark == 0);
    words.mark(&mut seat, 3);
    assert!(rt; words.marked(&mut pass) == 3);
    Ok(())
}
