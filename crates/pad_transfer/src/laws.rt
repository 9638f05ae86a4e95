// What transfers promise.
ghost use Rattle.pad_transfer.specs.Laws.{ChosenIsUnmasked};

/// Whatever bit was dealt and whichever message is chosen, the pad of that bit takes the reply to the chosen message.
pub fn chosen_is_unmasked()
    ensures { ChosenIsUnmasked }
{}
