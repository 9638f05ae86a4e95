// Ranges of units that rise, no two of which touch.
ghost use Rattle.std.specs.Prelude.{◌≡◌, ◌<◌, ◌≤◌, ◌+◌, ◌++◌, ◌∷◌, ℕ, length, take, drop, slice_index_or, OnOk};
ghost use Rattle.claim_store.specs.ClaimedRanges.{RiseFrom};
ghost use Rattle.zk_model.specs.declared.Span.{Span};
ghost use Rattle.claim_store.specs.Claims.{first_met, may_follow};
ghost use Rattle.claim_store.specs.Ranges.{IsPlaceAmong, before_ranges, with_span};

use std::alloc::AllocFailed;
use zk_model::Span;

/// How many of these ranges end at or before this unit.
fn ended_by(ranges: &[Span], unit: u64) -> usize
    requires { RiseFrom 0 ranges.now }
    ensures bound { result ≤ length ranges.now }
    ensures before { (k : ℕ) (d : Span) → k < result → (slice_index_or ranges.now k d).end ≤ unit }
    ensures behind { (k : ℕ) (d : Span) → result ≤ k → k < length ranges.now
        → unit < (slice_index_or ranges.now k d).end }
{
    ranges.partition_point(|range| range.end <= unit)
}

/// The range of least start that has a unit in common with the span.
pub fn first_met(ranges: &[Span], span: Span) -> Option<Span>
    requires { RiseFrom 0 ranges.now }
    ensures { result ≡ first_met span ranges.now }
{
    let first = ended_by(ranges, span.start);
    if first < ranges.len() && ranges[first].start < span.end {
        return Some(ranges[first]);
    }
    None
}

/// Whether the span has a unit, ends at or below the total, and has no unit of these ranges.
#[tactic(auto, using(crate::proofs::Meeting::none_met))]
pub fn may_follow(ranges: &[Span], total: u64, span: Span) -> bool
    requires { RiseFrom 0 ranges.now }
    ensures { result ≡ may_follow total ranges.now span }
{
    let fits = span.start < span.end && span.end <= total;
    fits && first_met(ranges, span).is_none()
}

/// The ranges that a span is one with, from `first` up to `end`, and what they are together.
struct Joined {
    first: usize,
    end: usize,
    span: Span,
}

/// Joins a span to the range before its place that ends where it starts, if one does.
fn join_before(ranges: &[Span], place: usize, span: Span) -> Joined
    requires rising { RiseFrom 0 ranges.now }
    requires some { span.start < span.end }
    requires place { IsPlaceAmong span ranges.now place }
    ensures first { (result.first ≤ place) × (place ≤ result.first + 1) }
    ensures end { result.end ≡ place }
    ensures joined { with_span span ranges.now
        ≡ take result.first ranges.now ++ before_ranges result.span (drop place ranges.now) }
{
    if place > 0 && ranges[place - 1].end == span.start {
        let start = ranges[place - 1].start;
        let end = span.end;
        return Joined {
            first: place - 1,
            end: place,
            span: Span { start, end },
        };
    }
    Joined {
        first: place,
        end: place,
        span,
    }
}

/// Joins it to the range behind its place that starts where it ends, if one does.
fn join_behind(ranges: &[Span], joined: Joined) -> Joined
    requires { joined.end ≤ length ranges.now }
    ensures first { result.first ≡ joined.first }
    ensures end { (joined.end ≤ result.end) × (result.end ≤ joined.end + 1) }
    ensures within { result.end ≤ length ranges.now }
    ensures joined { before_ranges joined.span (drop joined.end ranges.now)
        ≡ result.span ∷ drop result.end ranges.now }
{
    let Joined { first, end, span } = joined;
    if end < ranges.len() && ranges[end].start == span.end {
        return Joined {
            first,
            end: end + 1,
            span: Span {
                start: span.start,
                end: ranges[end].end,
            },
        };
    }
    Joined { first, end, span }
}

/// Finds the ranges that touch a span.
#[tactic(auto, using(crate::proofs::Places::is_place))]
fn find_joined(ranges: &[Span], span: Span) -> Joined
    requires rising { RiseFrom 0 ranges.now }
    requires some { span.start < span.end }
    ensures place { (result.first ≤ result.end) × (result.end ≤ result.first + 2) }
    ensures within { result.end ≤ length ranges.now }
    ensures joined { with_span span ranges.now
        ≡ take result.first ranges.now ++ result.span ∷ drop result.end ranges.now }
{
    let place = ended_by(ranges, span.start);
    join_behind(ranges, join_before(ranges, place, span))
}

/// How many ranges there are with a span that meets none of these.
pub fn count_with(ranges: &[Span], span: Span) -> usize
    requires rising { RiseFrom 0 ranges.now }
    requires some { span.start < span.end }
    ensures { result ≡ length (with_span span ranges.now) }
{
    let Joined {
        first,
        end,
        span: _,
    } = find_joined(ranges, span);
    first + 1 + (ranges.len() - end)
}

/// Takes a span that meets none of these ranges up among them: it is one with those that touch it.
pub fn add_span(ranges: &mut Vec<Span>, span: Span) -> Result<(), AllocFailed<Span>>
    requires rising { RiseFrom 0 ranges.old.items }
    requires some { span.start < span.end }
    ensures { OnOk result (ranges.new.items ≡ with_span span ranges.old.items) }
{
    let Joined { first, end, span } = find_joined(ranges, span);
    if first == end {
        return ranges.insert(first, span);
    }
    ranges[first] = span;
    if first + 1 < end {
        let _joined = ranges.remove(first + 1);
    }
    Ok(())
}
