// What is left of a node's sessions.
use claim_store::ClaimStore;
use session_verifier::SessionNote;
use zk_port::Disk;

/// A node's sessions once they have ended: their notes in order, the door and the store of claims, and whether the door failed, or memory
/// was missing for more of them.
#[derive(Drop)]
pub struct NodeServed<L, D, B: Disk> {
    pub notes: Vec<SessionNote<L>>,
    pub door: D,
    pub claims: ClaimStore<B>,
    pub door_failed: bool,
    pub memory_failed: bool,
}
