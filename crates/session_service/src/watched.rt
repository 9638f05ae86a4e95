// Sessions whose logs are kept as they end.
ghost use Rattle.std.specs.Prelude.{◌≡◌, ◌<◌, ℕ, List, All, AllPairs, IfSome, Some, length, string_bytes};
ghost use Rattle.std.specs.Option.{option_map};
ghost use Rattle.zk_port.specs.Changes.{change};
ghost use Rattle.lease_store.specs.Ceilings.{HasCeilingHeader};
ghost use Rattle.lease_store.specs.Desks.{Begins};
ghost use Rattle.lease_store.specs.Leases.{IsPassAt};
ghost use Rattle.session_pool.specs.Doors.{TakesLinks};
ghost use Rattle.session_pool.specs.Notes.{AreGrantsApart, IsLeft, IsNoteOf, IsRefusedAmong, IsUnused};
ghost use Rattle.session_verifier.specs.Outcomes.{grant_fault};
ghost use Rattle.session_verifier.specs.ServiceLogs.{TriesLogs};

use crate::sessions::{Kept, Sessions};
use command_words::ServeOptions;
use lease_store::LeaseParts;
use lease_words::Pass;
use session_pool::{Served, serve_all};
use session_verifier::{KeptLogs, LogDesk, LogFaults, LogKeeper, LogLoan, SessionNote, Watch};
use std::alloc::Global;
use std::sync::{Mutex, Wait};
use std::thread::Threads;
use zk_port::{Disk, Door, Shelf, Sink};

/// A desk for logs behind a lock, for which whoever has this handle may wait.
#[derive(Drop)]
struct LockedDesk<'a, 'b, F: Shelf, E: Sink, W: Watch, R> {
    rt: &'a R,
    desk: &'a Mutex<LogDesk<'b, F, E, W>>,
}

impl<'a, 'b, F: Shelf, E: Sink, W: Watch, R: Wait> LogKeeper for LockedDesk<'a, 'b, F, E, W, R> {
    fn keep<L>(&self, alloc: Global, note: &SessionNote<L>) {
        self.desk.lock(self.rt).keep(alloc, note);
    }
}

/// What came of the sessions, and what is left of the loan on which their logs were kept.
#[derive(Drop)]
pub(crate) struct Watched<'a, F: Shelf, E: Sink, D: Door, B> {
    pub(crate) served: Served<SessionNote<D::Link>, D, B>,
    pub(crate) faults: LogFaults,
    pub(crate) notices: &'a mut E,
    pub(crate) shelf: &'a mut F,
}

/// Leads the sessions with the peers that call at the door, and has their logs kept as they end.
pub(crate) fn serve_watched<'a, F, E, W, D, B, R, S>(
    rt: &R,
    alloc: Global,
    sessions: &S,
    loan: LogLoan<'a, F, E>,
    options: &'a ServeOptions<String>,
    parts: LeaseParts<B>,
    passes: Vec<Pass>,
    door: D,
) -> Watched<'a, F, E, D, B>
where
    F: Shelf + Send,
    E: Sink + Send,
    W: Watch + Send,
    D: Door + Send,
    D::Link: Drop + Send,
    B: Disk + Send,
    R: Threads + Wait + Sync,
    S: Sessions<D::Link> + Sync,
    requires shelf { loan.shelf.ghost_name ≡ W.shelf }
    requires notices { loan.notices.ghost_name ≡ W.notices }
    requires first { F.state loan.shelf.now ≡ W.first }
    requires silent { E.state loan.notices.now ≡ W.silent }
    requires prefix { option_map string_bytes options.now.logs ≡ W.prefix }
    requires follows { options.now.follow ≡ W.follows }
    requires own { All (IsPassAt parts.table parts.total) passes.items }
    requires all { length passes.items ≡ parts.passes }
    requires some { 0 < length passes.items }
    requires total { parts.total ≡ S.total sessions.now }
    requires header { (bytes : List ℕ) → (B.state parts.disk).content ≡ Some bytes
        → HasCeilingHeader (S.id sessions.now) parts.total bytes }
    requires begins { Begins (B.state parts.disk) (B.state parts.disk) }
    ensures notes { All (IsNoteOf (S.is_note sessions.now)) result.served.notes.items }
    ensures taken { TakesLinks options.now.sessions (length result.served.notes.items)
        result.served.door_failed result.served.memory_failed (D.state door) (D.state result.served.door) }
    ensures apart { AllPairs (λ m n. AreGrantsApart m.granted n.granted) result.served.notes.items }
    ensures left { IsLeft (All IsUnused passes.items) (B.state parts.disk) (B.state result.served.disk)
        (S.id sessions.now) parts.base parts.total parts.passes (S.size sessions.now)
        (λ n. n.granted) (λ n. grant_fault n.outcome) result.served.notes.items }
    ensures refused { All IsUnused passes.items → All (λ note. IfSome (grant_fault note.outcome)
        (IsRefusedAmong (S.size sessions.now) parts.base parts.total result.served.notes.items note))
        result.served.notes.items }
    ensures shelf { result.shelf.ghost_name ≡ W.shelf }
    ensures tried { TriesLogs W.prefix (change W.first (F.state result.shelf.now))
        result.faults.failed }
{
    let desk = Mutex::new(LogDesk::<F, E, W>::new(loan, options.logs.as_deref(), options.follow));
    let locked = LockedDesk { rt, desk: &desk };
    let keeper = &locked;
    let session = Kept { sessions, keeper };
    let served = serve_all(rt, alloc, &session, parts, passes, door, options.sessions);
    let KeptLogs { loan, faults } = desk.into_inner().close();
    let LogLoan { shelf, notices } = loan;
    Watched {
        served,
        faults,
        notices,
        shelf,
    }
}
