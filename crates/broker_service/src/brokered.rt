// What is left of a broker's service, and who is told of it.
use broker_links::BrokerNote;
use lease_store::LeaseFault;
use std::alloc::Global;

/// What came of the exchanges with the nodes that called: a note for each, in their order; the door and the disk as they are left;
/// whether a call of the door failed, and whether memory was missing for a link, a note or what the broker keeps.
#[derive(Drop)]
pub struct Brokered<L, D, B> {
    pub notes: Vec<BrokerNote<L, LeaseFault>>,
    pub door: D,
    pub disk: B,
    pub door_failed: bool,
    pub memory_failed: bool,
}

/// Is told of each exchange once it ended.
pub trait Teller {
    /// Takes notice of it.
    fn tell<L>(&mut self, alloc: Global, note: &BrokerNote<L, LeaseFault>);
}
