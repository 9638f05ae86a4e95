// What runs of a node and of a broker are.
ghost use Rattle.broker_laws.specs.Laws.{ClaimsLeaveJournals, ExchangesAreDeeds, GrantsAreDeeds, ServicesAreDeeds};

use zk_port::{Disk, Door};

/// A grant of a node is a list of its deeds: the Wants of its tries are sent, the Blocks that they bring are met, and what is granted is drawn.
pub fn grants_are_deeds<B: Disk, D: Door>()
    ensures { GrantsAreDeeds D.Link.state B.state }
{}

/// What a crash leaves of a node's journal, at any moment of a claim, says what the journal kept before, or that with the units.
pub fn claims_leave_journals<B: Disk>()
    ensures { ClaimsLeaveJournals B.state }
{}

/// The exchanges of a broker are a list of its deeds: each Want that is answered came, and its reply is sent.
pub fn exchanges_are_deeds<C: Disk, D: Door>()
    ensures { ExchangesAreDeeds D.Link.state C.state }
{}

/// So is a whole service of a broker that began with a new pass. Where all Wants that it answered were granted, the ceiling that its journal keeps
/// by these deeds is that of its closed store.
pub fn services_are_deeds<C: Disk, D: Door>()
    ensures { ServicesAreDeeds D.Link.state C.state }
{}
