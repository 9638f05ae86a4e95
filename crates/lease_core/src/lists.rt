// What the lists of a state tell.
ghost use Rattle.std.specs.Prelude.{◌≡◌};
ghost use Rattle.lease_core.specs.Spans.{has_span, meets_any};
ghost use Rattle.lease_core.specs.Machine.{last_of, last_drawn, is_passed};

use crate::event::Drawn;
use zk_model::Span;

/// Whether the span is one of these.
pub(crate) fn has(spans: &[Span], span: Span) -> bool
    ensures { result ≡ has_span span spans.now }
{
    spans.iter().any(|s| *s == span)
}

/// Whether the span has a unit in common with one of these.
pub(crate) fn meets_any(spans: &[Span], span: Span) -> bool
    ensures { result ≡ meets_any span spans.now }
{
    spans
        .iter()
        .any(|s| s.start < span.end && span.start < s.end)
}

/// Whether the pass drew a span that ends above the total.
pub(crate) fn is_passed(total: u64, pass: u32, drawn: &[Drawn]) -> bool
    ensures { result ≡ is_passed total pass drawn.now }
{
    drawn.iter().any(|d| d.pass == pass && total < d.span.end)
}

/// The last span that the pass drew.
pub(crate) fn last_drawn(pass: u32, drawn: &[Drawn]) -> Option<Span>
    ensures { result ≡ last_drawn pass drawn.now }
{
    let mut found = None;
    for d in drawn {
        if d.pass == pass {
            found = Some(d.span);
        }
    }
    found
}

/// The last of these numbers, or 0.
pub(crate) fn last_of(numbers: &[u64]) -> u64
    ensures { result ≡ last_of numbers.now }
{
    match numbers.last() {
        Some(last) => *last,
        None => 0,
    }
}
