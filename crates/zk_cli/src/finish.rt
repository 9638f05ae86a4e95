// What a run hands back.
ghost use Rattle.std.specs.Prelude.{◌≡◌};
ghost use Rattle.zk_cli.specs.declared.finish.Part.TheVariants.{Plain};

use broker_links::BrokerNote;
use claim_rehearsal::ClaimRehearsal;
use lease_store::LeaseFault;
use session_prover::ProverNote;
use session_rehearsal::{Bits, Elements, Rehearsal};
use session_verifier::SessionNote;
use zk_port::Door;

/// What a run made beside its lines; L is what a connection is made of.
#[derive(Drop)]
pub enum Part<L> {
    /// Nothing.
    Plain,
    /// What a rehearsal gave of a Boolean circuit.
    Rehearsed(Rehearsal<Bits>),
    /// What a rehearsal gave of an arithmetic one.
    RehearsedElements(Rehearsal<Elements>),
    /// What a rehearsal gave of constraints.
    RehearsedClaim(ClaimRehearsal),
    /// What came of a session with a verifier: exactly where the door connected.
    Proved(ProverNote<L>),
    /// What came of the sessions with the peers that called, in order: exactly where the door listened.
    Served(Vec<SessionNote<L>>),
    /// What came of the wants of the nodes that called, in order: exactly where the door listened.
    Brokered(Vec<BrokerNote<L, LeaseFault>>),
}

/// How a command ends: the status that the program ends with, and what it made beside its lines.
#[derive(Drop)]
pub struct Ending<L> {
    pub status: u8,
    pub part: Part<L>,
}

/// What a run hands back: the status that the program ends with, the disk and the door that it was given, and
/// what it made beside its lines.
#[derive(Drop)]
pub struct Finish<B, D: Door> {
    pub status: u8,
    pub journal: B,
    pub door: D,
    pub part: Part<D::Link>,
}

/// The disk and the door that a run is given, and hands back.
#[derive(Drop)]
pub struct Ports<B, D> {
    pub journal: B,
    pub door: D,
}

impl<B, D: Door> Ports<B, D> {
    /// The end of a run of this status, which makes nothing beside its lines.
    pub fn end(self, status: u8) -> Finish<B, D>
        ensures { result ≡ record {
          status = status;
          journal = self.journal;
          door = self.door;
          part = Plain;
        } }
    {
        self.end_with(Ending {
            status,
            part: Part::Plain,
        })
    }

    /// The end of a run whose command ends so.
    pub fn end_with(self, ending: Ending<D::Link>) -> Finish<B, D>
        ensures { result ≡ record {
          status = ending.status;
          journal = self.journal;
          door = self.door;
          part = ending.part;
        } }
    {
        let Ports { journal, door } = self;
        let Ending { status, part } = ending;
        Finish {
            status,
            journal,
            door,
            part,
        }
    }
}
