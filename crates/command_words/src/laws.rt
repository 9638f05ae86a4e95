// What the definitions of the words mean.
ghost use Rattle.std.specs.Prelude.{◌≡◌, ◌↔◌, ℕ, List};
ghost use Rattle.command_words.specs.Arguments.{arranged, Word};
ghost use Rattle.command_words.specs.Orders.{StandsAmong};

/// Words are sorted into these places and options exactly where they stand so.
pub fn words_stand_so()
    ensures { (words : List (List ℕ)) (positional : List (List ℕ)) (options : List Word) →
        (arranged words ≡ Some (positional, options)) ↔ StandsAmong words positional options }
{}
