// The rule of the lease table, and the kinds of step.
use crate::keeper::Keeper;
use crate::view::{Key, View};
use atomic_table::{Join, Play, Split, TableRule};
use std::marker::PhantomData;

/// The rule of the lease table: among others, that the keeper of the table's name stored the ceiling shown, and that this was
/// asked for, and that one seat at most met the fault of the journal.
pub struct Leases<K> {
    of: PhantomData<K>,
}

impl<K: Keeper> TableRule<(), View, Key> for Leases<K> {
    ghost use Rattle.lease_words.specs.Views.{first_view};
    ghost use Rattle.lease_words.specs.OneFault.{MetRule};

    ghost holds = { MetRule K.label K.stores };

    ghost first = { λ key. first_view key.keeper key.bounds };
}

/// The journal's seat makes a pass.
pub(crate) struct Make;

impl Split<View> for Make {
    ghost use Rattle.lease_words.specs.Views.{after_make, new_pass};

    ghost left = { after_make };

    ghost right = { new_pass };
}

/// The journal's seat takes in what a pass knows.
pub(crate) struct TakeIn;

impl Join<View> for TakeIn {
    ghost use Rattle.lease_words.specs.Views.{after_join, spent_view};

    ghost both = { after_join };

    ghost spent = { spent_view };
}

/// A pass writes a receipt.
pub(crate) struct WriteReceipt;

impl Split<View> for WriteReceipt {
    ghost use Rattle.lease_words.specs.Views.{receipt_of};

    ghost left = { λ v. v };

    ghost right = { receipt_of };
}

/// The journal's seat learns what a receipt says.
pub(crate) struct ReadReceipt;

impl Join<View> for ReadReceipt {
    ghost use Rattle.lease_words.specs.Views.{after_receipt, spent_view};

    ghost both = { after_receipt };

    ghost spent = { spent_view };
}

/// The journal's seat gives a word of the faults that it met.
pub(crate) struct Tell;

impl Split<View> for Tell {
    ghost use Rattle.lease_words.specs.Views.{after_telling, word_of};

    ghost left = { after_telling };

    ghost right = { word_of };
}

/// A pass takes a word of faults.
pub(crate) struct BeTold;

impl Join<View> for BeTold {
    ghost use Rattle.lease_words.specs.Views.{after_told, spent_view};

    ghost both = { after_told };

    ghost spent = { spent_view };
}

/// A pass draws, and the ceiling that it knows is stored.
pub(crate) struct Draw<K> {
    of: PhantomData<K>,
}

impl<K: Keeper> Play<(), View> for Draw<K> {
    ghost use Rattle.lease_words.specs.Stored.{DrawsStored};

    ghost then = { DrawsStored K.stores };
}

/// A pass looks at the ceiling, which is stored.
pub(crate) struct Look<K> {
    of: PhantomData<K>,
}

impl<K: Keeper> Play<(), View> for Look<K> {
    ghost use Rattle.lease_words.specs.Stored.{LooksStored};

    ghost then = { LooksStored K.stores };
}

/// The journal's seat shows a higher ceiling.
pub(crate) struct Raise;

impl Play<(), View> for Raise {
    ghost use Rattle.lease_words.specs.Steps.{Raises};

    ghost then = { Raises };
}

/// The journal's seat sets the mark.
pub(crate) struct SetMark;

impl Play<(), View> for SetMark {
    ghost use Rattle.lease_words.specs.Steps.{Marks};

    ghost then = { Marks };
}

/// A pass looks at the mark.
pub(crate) struct FindMark;

impl Play<(), View> for FindMark {
    ghost use Rattle.lease_words.specs.Steps.{FindsMark};

    ghost then = { FindsMark };
}
