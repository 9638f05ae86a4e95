// The correlations of a session, at either end.
ghost use Rattle.std.specs.Prelude.{◌≡◌};
ghost use Rattle.wire_auth.specs.Held.{items_in};

/// The correlations of a session: those that the units of its grant were dealt, where the file has them, or those that a round
/// made of fewer.
#[derive(Debug, Drop)]
pub enum Correlations<'a, T> {
    Dealt(&'a [T]),
    Made(Vec<T>),
}

impl<'a, T> Correlations<'a, T> {
    /// The correlations, in order.
    pub fn as_slice(&self) -> &[T]
        ensures { result.now ≡ items_in self.now }
    {
        match self {
            Correlations::Dealt(items) => items,
            Correlations::Made(items) => items,
        }
    }
}
