// Ranges as the bodies of a journal.
ghost use Rattle.std.specs.Prelude.{◌≡◌, drop};
ghost use Rattle.claim_store.specs.Claims.{bodies_of};

use twin_journal::Bodies;
use zk_model::Span;

/// Gives the bodies of ranges, one after another.
#[derive(Drop)]
pub struct Merged<'a> {
    ranges: &'a [Span],
    next: usize,
}

impl<'a> Merged<'a> {
    /// Gives the bodies of these ranges from the first on.
    pub fn new(ranges: &'a [Span]) -> Merged<'a>
        ensures { bodies_of (drop result.next result.ranges.now) ≡ bodies_of ranges.now }
    {
        Merged { ranges, next: 0 }
    }
}

impl<'a> Bodies for Merged<'a> {
    ghost rest = { λ m. bodies_of (drop m.next m.ranges.now) };

    fn next(&mut self) -> Option<(u64, u64)> {
        if self.next >= self.ranges.len() {
            return None;
        }
        let Span { start, end } = self.ranges[self.next];
        self.next += 1;
        Some((start, end))
    }
}
