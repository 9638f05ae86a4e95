// What is known of a text that says elements.
ghost use Rattle.element_file.specs.Laws.{ElementsAreExact};

/// A text that says elements says no others, each is below 2^61 - 1, and no token of it is bad.
pub fn elements_are_exact()
    ensures { ElementsAreExact }
{}
