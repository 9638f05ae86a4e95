// The frames of a session, and of an exchange with a broker of units: a kind, the length of the payload, and the payload.
ghost use Rattle.std.specs.Prelude.{◌≡◌};
ghost use Rattle.zk_model.specs.Transcript.{kind_number};

use mersenne_field::Fe;
use std::marker::Model;
use tree_messages::{TreeAsk, TreeReply};
use zk_model::{Block, FrameKind, Out, Want};

/// The prover's greeting: the id of the dealt files, the digests (SHA-256 of FIPS 180-4) of the circuit's text and of the
/// claimed outputs, the version, and in the long form the digest of the public bits.
#[derive(Clone, Copy, Debug, PartialEq, Eq)]
pub struct Hello {
    pub id: [u8; 32],
    pub circuit: [u8; 32],
    pub outputs: [u8; 32],
    pub version: u8,
    pub public: Option<[u8; 32]>,
}

impl Model for Hello {
    ghost use Rattle.zk_model.specs.Transcript as transcript;

    ghost Value = { transcript.Hello };

    ghost view = { λ h. record {
      id = h.id;
      circuit = h.circuit;
      outputs = h.outputs;
      version = h.version;
      public = h.public;
    } };

    ghost inverse = { λ h. record {
      id = h.id;
      circuit = h.circuit;
      outputs = h.outputs;
      version = h.version;
      public = h.public;
    } };
}

/// The verifier's grant: the first unit, how many units, and how many products a section has.
#[derive(Clone, Copy, Debug, PartialEq, Eq)]
pub struct Grant {
    pub start: u64,
    pub count: u32,
    pub section: u32,
}

impl Model for Grant {
    ghost use Rattle.zk_model.specs.Transcript as transcript;

    ghost Value = { transcript.Grant };

    ghost view = { λ g. record { start = g.start; count = g.count; section_length = g.section } };

    ghost inverse = { λ g. record { start = g.start; count = g.count; section = g.section_length } };
}

/// A frame: what one end says to the other at once.
#[derive(Debug, Drop)]
pub enum Frame {
    /// The prover greets.
    Hello(Hello),
    /// The verifier grants units.
    Grant(Grant),
    /// What the prover asks for each tree of a unit.
    ExtendAsk(Vec<TreeAsk>),
    /// What the verifier replies for each tree of a unit.
    ExtendReply(Vec<TreeReply>),
    /// A correction for each given value.
    Corrections(Vec<Fe>),
    /// The challenge of the checks.
    Challenge(Fe),
    /// U and V of each section.
    Sums(Vec<(Fe, Fe)>),
    /// The MAC of each opened wire.
    Openings(Vec<Fe>),
    /// Code 0 for an acceptance, 1 for a section whose sums fail, 2 for an output whose MAC fails; and the number of the
    /// section or of the output.
    Verdict { code: u8, number: u32 },
    /// What stands in place of a grant.
    Refuse { code: u8 },
    /// A node asks a broker for units.
    Want(Want),
    /// A broker leases units to a node.
    Block(Block),
    /// What stands in place of a block.
    Out(Out),
    /// The sums of constraints.
    PolySums(Vec<Fe>),
}

impl Frame {
    ghost use Rattle.proof_frames.specs.Frames.{frame_value, kind_of};

    /// The kind of the frame.
    pub fn kind(&self) -> FrameKind
        ensures { result ≡ kind_of (frame_value self.now) }
    {
        match self {
            Frame::Hello(_) => FrameKind::Hello,
            Frame::Grant(_) => FrameKind::Grant,
            Frame::ExtendAsk(_) => FrameKind::ExtendAsk,
            Frame::ExtendReply(_) => FrameKind::ExtendReply,
            Frame::Corrections(_) => FrameKind::Corrections,
            Frame::Challenge(_) => FrameKind::Challenge,
            Frame::Sums(_) => FrameKind::Sums,
            Frame::Openings(_) => FrameKind::Openings,
            Frame::Verdict { .. } => FrameKind::Verdict,
            Frame::Refuse { .. } => FrameKind::Refuse,
            Frame::Want(_) => FrameKind::Want,
            Frame::Block(_) => FrameKind::Block,
            Frame::Out(_) => FrameKind::Out,
            Frame::PolySums(_) => FrameKind::Sums,
        }
    }
}

/// The number of a kind of frame.
pub(crate) fn number_of(kind: FrameKind) -> u8
    ensures { result ≡ kind_number kind }
{
    match kind {
        FrameKind::Hello => 1,
        FrameKind::Grant => 2,
        FrameKind::ExtendAsk => 3,
        FrameKind::ExtendReply => 4,
        FrameKind::Corrections => 5,
        FrameKind::Challenge => 6,
        FrameKind::Sums => 7,
        FrameKind::Openings => 8,
        FrameKind::Verdict => 9,
        FrameKind::Refuse => 10,
        FrameKind::Want => 11,
        FrameKind::Block => 12,
        FrameKind::Out => 13,
    }
}
