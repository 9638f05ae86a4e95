// Lists of bodies that are given one after another.
ghost use Rattle.std.specs.Prelude.{◌≡◌, ◌∷◌, [], ℕ, List, MatchOption, option_to_list};

/// Gives the bodies of a list one after another, and none exactly after the last.
pub trait Bodies {
    /// The bodies that are still to come, in order.
    ghost rest: { Self → List (ℕ × ℕ) };

    /// The next body.
    fn next(&mut self) -> Option<(u64, u64)>
        ensures { MatchOption result ((rest self.old ≡ []) × (rest self.new ≡ []))
            (λ body. rest self.old ≡ body ∷ rest self.new) };
}

/// A list of one body, or of none.
#[derive(Drop)]
pub struct OneBody {
    body: Option<(u64, u64)>,
}

impl OneBody {
    /// The list of this body, if there is one.
    pub fn new(body: Option<(u64, u64)>) -> Self
        ensures { ⟦<OneBody as Bodies>⟧.rest result ≡ option_to_list body }
    {
        OneBody { body }
    }
}

impl Bodies for OneBody {
    ghost use Rattle.std.specs.Prelude.{option_to_list};

    ghost rest = { λ one. option_to_list one.body };

    fn next(&mut self) -> Option<(u64, u64)> {
        self.body.take()
    }
}
