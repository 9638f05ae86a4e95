// What commands ask for: a record of each, of texts `T` and bits `B`, which code and contracts share.
use crate::bits::BitsWord;
use zk_model::{Kind, Params, Side};

/// How many sessions a run serves at most.
pub const MAX_SESSIONS: u32 = 65_536;

/// How many wants a broker answers in a run at most.
pub const MAX_ASKS: u32 = 65_536;

/// For how many seconds a silent peer is waited for at most: a day.
pub const MAX_TIMEOUT: u32 = 86_400;

/// A rehearsal: the circuit's file, the public input bits and the private ones, the kind of the dealt files, and how many products a
/// section has.
#[derive(Debug, Drop)]
pub struct RehearseAsk<T, B> {
    pub circuit: T,
    pub public: B,
    pub bits: B,
    pub kind: Kind,
    pub section: u32,
}

/// A rehearsal of a generated circuit: how many gates it has, and the number that it is drawn from.
#[derive(Clone, Copy, Debug)]
pub struct GenerateAsk {
    pub gates: u32,
    pub number: u64,
    pub kind: Kind,
    pub section: u32,
}

/// A rehearsal of an arithmetic circuit: its file, that of the input elements, the kind of the dealt files, and how many products a section
/// has.
#[derive(Debug, Drop)]
pub struct RehearseArithAsk<T> {
    pub circuit: T,
    pub values: T,
    pub kind: Kind,
    pub section: u32,
}

/// A rehearsal of constraints: the file of their text, that of the values, the kind of the dealt files, and how many products a grant says
/// that a section has.
#[derive(Debug, Drop)]
pub struct RehearsePolyAsk<T> {
    pub text: T,
    pub values: T,
    pub kind: Kind,
    pub section: u32,
}

/// An evaluation: the circuit's file and the bits.
#[derive(Debug, Drop)]
pub struct EvalAsk<T, B> {
    pub circuit: T,
    pub bits: B,
}

/// A dealing: the first part of the files' names, and what they are made for.
#[derive(Debug, Drop)]
pub struct DealAsk<T> {
    pub name: T,
    pub params: Params,
}

/// The options of a service: how many sessions, by how many workers at once, how many products a section has, for how many seconds a
/// silent peer is waited for, what the names of the logs begin with, where they are kept, and whether standard error says how it goes.
#[derive(Debug, Drop)]
pub struct ServeOptions<T> {
    pub sessions: u32,
    pub workers: u32,
    pub section: u32,
    pub timeout: u32,
    pub logs: Option<T>,
    pub follow: bool,
}

/// A verifier that serves one statement: where provers connect, the verifier's file, the circuit's file, the public input bits, and the
/// claimed outputs.
#[derive(Debug, Drop)]
pub struct ServeAsk<T, B> {
    pub address: T,
    pub file: T,
    pub circuit: T,
    pub public: B,
    pub outputs: B,
    pub options: ServeOptions<T>,
}

/// A verifier that serves several statements: where provers connect, its file, and the statements: the file that names them, or
/// what is made of that.
#[derive(Debug, Drop)]
pub struct ServeManyAsk<T, S = T> {
    pub address: T,
    pub file: T,
    pub statements: S,
    pub options: ServeOptions<T>,
}

/// A verifier that serves one statement about an arithmetic circuit: where provers connect, the verifier's file, the circuit's file, and
/// that of the claimed outputs.
#[derive(Debug, Drop)]
pub struct ServeArithAsk<T> {
    pub address: T,
    pub file: T,
    pub circuit: T,
    pub outputs: T,
    pub options: ServeOptions<T>,
}

/// A verifier that serves constraints: where provers connect, the verifier's file, and the file of their text.
#[derive(Debug, Drop)]
pub struct ServePolyAsk<T> {
    pub address: T,
    pub file: T,
    pub text: T,
    pub options: ServeOptions<T>,
}

/// A prover: where the verifier listens, the prover's file, the circuit's file, the public input bits and the private ones, the claimed
/// outputs, and for how many seconds a silent peer is waited for.
#[derive(Debug, Drop)]
pub struct ProveAsk<T, B> {
    pub address: T,
    pub file: T,
    pub circuit: T,
    pub public: B,
    pub bits: B,
    pub outputs: B,
    pub timeout: u32,
}

/// A prover of a statement about an arithmetic circuit: where the verifier listens, the prover's file, the circuit's file, those of the input
/// elements and of the claimed outputs, and for how many seconds a silent peer is waited for.
#[derive(Debug, Drop)]
pub struct ProveArithAsk<T> {
    pub address: T,
    pub file: T,
    pub circuit: T,
    pub values: T,
    pub outputs: T,
    pub timeout: u32,
}

/// A prover of constraints: where the verifier listens, the prover's file, the files of their text and of the values, and for how many
/// seconds a silent peer is waited for.
#[derive(Debug, Drop)]
pub struct ProvePolyAsk<T> {
    pub address: T,
    pub file: T,
    pub text: T,
    pub values: T,
    pub timeout: u32,
}

/// An audit: the circuit's file, the public input bits, the claimed outputs, both dealt files, and a session's log.
#[derive(Debug, Drop)]
pub struct AuditAsk<T, B> {
    pub circuit: T,
    pub public: B,
    pub outputs: B,
    pub prover: T,
    pub verifier: T,
    pub log: T,
}

/// An audit of a session about an arithmetic circuit: the circuit's file, that of the claimed outputs, both dealt files, and the log.
#[derive(Debug, Drop)]
pub struct AuditArithAsk<T> {
    pub circuit: T,
    pub outputs: T,
    pub prover: T,
    pub verifier: T,
    pub log: T,
}

/// A migration: which side's dealt file it is, and the file.
#[derive(Debug, Drop)]
pub struct MigrateAsk<T> {
    pub side: Side,
    pub file: T,
}

/// A status: a dealt file, a circuit's file, where one is named, and the number of a node, where one is: then it is of what that node used.
#[derive(Debug, Drop)]
pub struct StatusAsk<T> {
    pub file: T,
    pub circuit: Option<T>,
    pub node: Option<u32>,
}

/// A new node of a verifier's file, and its number.
#[derive(Debug, Drop)]
pub struct NodeAsk<T> {
    pub file: T,
    pub node: u32,
}

/// A broker of a verifier's file: where nodes connect, the file, how many wants are answered, for how many seconds a silent node is waited for,
/// and whether standard error says how it goes.
#[derive(Debug, Drop)]
pub struct BrokerAsk<T> {
    pub address: T,
    pub file: T,
    pub asks: u32,
    pub timeout: u32,
    pub follow: bool,
}

/// A node that serves one statement: where provers connect, where its broker listens, the verifier's file, the circuit's file, the claimed
/// outputs, the node's number, how many sessions, for how many seconds a silent peer is waited for, and whether standard error says how it
/// goes.
#[derive(Debug, Drop)]
pub struct ServeNodeAsk<T, B> {
    pub address: T,
    pub broker: T,
    pub file: T,
    pub circuit: T,
    pub outputs: B,
    pub node: u32,
    pub sessions: u32,
    pub timeout: u32,
    pub follow: bool,
}

/// What can be asked for.
#[derive(Debug, Drop)]
pub enum Ask<T, B> {
    Rehearse(RehearseAsk<T, B>),
    Generate(GenerateAsk),
    RehearseArith(RehearseArithAsk<T>),
    RehearsePoly(RehearsePolyAsk<T>),
    Eval(EvalAsk<T, B>),
    Deal(DealAsk<T>),
    Serve(ServeAsk<T, B>),
    ServeMany(ServeManyAsk<T>),
    ServeArith(ServeArithAsk<T>),
    ServePoly(ServePolyAsk<T>),
    Prove(ProveAsk<T, B>),
    ProveArith(ProveArithAsk<T>),
    ProvePoly(ProvePolyAsk<T>),
    Audit(AuditAsk<T, B>),
    AuditArith(AuditArithAsk<T>),
    Migrate(MigrateAsk<T>),
    Status(StatusAsk<T>),
    Node(NodeAsk<T>),
    Broker(BrokerAsk<T>),
    ServeNode(ServeNodeAsk<T, B>),
}

/// A command, where bits are given as `B`.
pub type Command<B> = Ask<String, B>;

/// A command as its words give it.
pub type SaidCommand = Command<BitsWord>;
