// What the definitions of texts promise.
ghost use Rattle.poly_text.specs.Laws.{TextsAreExact};

/// A text is judged to say constraints exactly where it says them: so it says one list of them at most, and where it has a fault none.
pub fn texts_are_exact()
    ensures { TextsAreExact }
{}
