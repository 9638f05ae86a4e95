// What came of a run.

/// What came of the sessions with the peers that called: a note for each; the door and the disk as they are left; whether a call of the
/// door failed, and whether memory was missing for a link, a note or a worker.
#[derive(Drop)]
pub struct Served<M, D, B> {
    pub notes: Vec<M>,
    pub door: D,
    pub disk: B,
    pub door_failed: bool,
    pub memory_failed: bool,
}
