// One who keeps the logs of sessions as they end.
ghost use Rattle.std.specs.Prelude.{◌≡◌, false};
ghost use Rattle.std.specs.Option.{option_map};
ghost use Rattle.zk_port.specs.Changes.{change};
ghost use Rattle.session_verifier.specs.ServiceLogs.{TriesLogs};

use crate::note::SessionNote;
use crate::note_lines::write_note;
use crate::service_logs::{LogFaults, store_log};
use std::alloc::Global;
use std::marker::{Brand, Model, PhantomData};
use zk_port::{Shelf, Sink};

/// One who is told of each session that has ended, by whichever thread led it.
pub trait LogKeeper {
    /// A session has ended.
    fn keep<L>(&self, alloc: Global, note: &SessionNote<L>);
}

/// A shelf that logs are kept on, and a sink that lines are said to, lent for the sessions of a run.
#[derive(Drop)]
pub struct LogLoan<'a, F: Shelf, E: Sink> {
    pub shelf: &'a mut F,
    pub notices: &'a mut E,
}

/// Names one run of a service: the loan, and what it was at the start; what the names of logs begin with, where they are kept; and whether
/// lines are said.
pub trait Watch {
    ghost use Rattle.std.specs.Prelude.{ℕ, List, Option, Bool};
    ghost use Rattle.zk_port.specs.Shelves.{ShelfState};
    ghost use Rattle.zk_port.specs.Sinks.{SinkState};

    ghost shelf: { ℕ };

    ghost notices: { ℕ };

    ghost first: { ShelfState };

    ghost silent: { SinkState };

    ghost prefix: { Option (List ℕ) };

    ghost follows: { Bool };
}

impl Watch for Brand {
    ghost use Rattle.std.specs.Prelude.{None, false};

    ghost shelf = { 0 };

    ghost notices = { 0 };

    ghost first = { record { told = None; faults = 0; faults_of = λ _. 0 } };

    ghost silent = { record { written = None; faults = 0 } };

    ghost prefix = { None };

    ghost follows = { false };
}

/// What the sessions of a run are told of, under a lock: of the shelf nothing but logs is asked, and nothing is said to the sink where no
/// lines are.
#[derive(Drop)]
pub struct LogDesk<'a, F: Shelf, E: Sink, W: Watch> {
    shelf: &'a mut F,
    notices: &'a mut E,
    prefix: Option<&'a str>,
    follows: bool,
    faults: LogFaults,
    watch: PhantomData<W>,
}

impl<'a, F: Shelf, E: Sink, W: Watch> Model for LogDesk<'a, F, E, W> {
    ghost use Rattle.std.specs.Prelude.{◌≡◌};
    ghost use Rattle.std.specs.Option.{option_map};
    ghost use Rattle.session_verifier.specs.ServiceLogs.{IsDesk};

    ghost Value = { Unit {0} };

    ghost view = { λ d. tt };

    ghost invariant = { λ d. (d.shelf.ghost_name ≡ W.shelf) × (d.notices.ghost_name ≡ W.notices)
        × (option_map (λ p. p.now) d.prefix ≡ W.prefix) × (d.follows ≡ W.follows)
        × IsDesk W.prefix W.follows W.first (F.state d.shelf.now) W.silent (E.state d.notices.now) d.faults.failed };
}

/// What is left once all sessions have ended: the loan, and what became of the calls for logs.
pub struct KeptLogs<'a, F: Shelf, E: Sink> {
    pub loan: LogLoan<'a, F, E>,
    pub faults: LogFaults,
}

impl<'a, F: Shelf, E: Sink, W: Watch> LogDesk<'a, F, E, W> {
    /// Before any session has ended.
    pub fn new(loan: LogLoan<'a, F, E>, prefix: Option<&'a str>, follows: bool) -> Self
        requires shelf { loan.shelf.ghost_name ≡ W.shelf }
        requires notices { loan.notices.ghost_name ≡ W.notices }
        requires first { F.state loan.shelf.now ≡ W.first }
        requires silent { E.state loan.notices.now ≡ W.silent }
        requires prefix { option_map (λ p. p.now) prefix ≡ W.prefix }
        requires follows { follows ≡ W.follows }
    {
        let LogLoan { shelf, notices } = loan;
        LogDesk {
            shelf,
            notices,
            prefix,
            follows,
            faults: LogFaults::none(),
            watch: PhantomData,
        }
    }

    /// Says the line of a session that has ended, where lines are said.
    fn say<L>(&mut self, alloc: Global, note: &SessionNote<L>) {
        if self.follows {
            if let Ok(line) = write_note(alloc, note) {
                let _ = self.notices.put(alloc, line.as_bytes());
            }
        }
    }

    /// Stores the log of a session that has ended, if it was granted units and logs are kept.
    fn store<L>(&mut self, alloc: Global, note: &SessionNote<L>) {
        let (Some(prefix), Some(span)) = (self.prefix, note.granted) else {
            return;
        };
        store_log(
            alloc,
            self.shelf,
            prefix,
            span.start,
            &note.log,
            &mut self.faults,
        );
    }

    /// Keeps the log of a session that has ended, and says its line.
    pub fn keep<L>(&mut self, alloc: Global, note: &SessionNote<L>) {
        self.store(alloc, note);
        self.say(alloc, note);
    }

    /// Once all sessions have ended.
    pub fn close(self) -> KeptLogs<'a, F, E>
        ensures shelf { result.loan.shelf.ghost_name ≡ W.shelf }
        ensures notices { result.loan.notices.ghost_name ≡ W.notices }
        ensures tried { TriesLogs W.prefix
            (change W.first (F.state result.loan.shelf.now)) result.faults.failed }
        ensures quiet { W.follows ≡ false → E.state result.loan.notices.now ≡ W.silent }
    {
        let LogDesk {
            shelf,
            notices,
            faults,
            ..
        } = self;
        KeptLogs {
            loan: LogLoan { shelf, notices },
            faults,
        }
    }
}
