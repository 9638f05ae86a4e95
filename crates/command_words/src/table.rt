// The commands as a table: a row says which words a command takes, how each is read, and what its help is.
ghost use Rattle.std.specs.Prelude.{◌≡◌};
ghost use Rattle.command_words.specs.Rows.{named, row_at, row_of};

use crate::asks::{MAX_ASKS, MAX_SESSIONS, MAX_TIMEOUT};
use crate::help;
use Need::{Always, Default, Optional};
use WordKind::{Bits, Number, Side, Text};
use zk_model::{
    MAX_BASE, MAX_DEALT_UNITS, MAX_GENERATED_GATES, MAX_HEIGHT, MAX_NODES, MAX_PASSES,
    MAX_SECTION_LENGTH, MAX_TREES,
};

/// How a word is read: as it stands, as bits or the name of a file of them, as a side, or as a number between these two.
#[derive(Clone, Copy)]
pub enum WordKind {
    Text,
    Bits,
    Side,
    Number(u64, u64),
}

/// Whether a word has to stand, may be left out, or is this one where it is left out.
#[derive(Clone, Copy)]
pub enum Need<T> {
    Always,
    Optional,
    Default(T),
}

/// A word of a command: its id, how it is read, and whether it has to stand.
#[derive(Clone, Copy)]
pub struct Column<T>(pub T, pub WordKind, pub Need<T>);

/// A command: its name, its words in places, the options that a word follows, those that stand by themselves, and its help.
#[derive(Clone, Copy)]
pub struct Row<T, C, F> {
    pub name: T,
    pub places: C,
    pub options: C,
    pub flags: F,
    pub help: T,
}

/// A word of the table.
pub type TableColumn = Column<&'static str>;

/// A row of the table.
pub type TableRow = Row<&'static str, &'static [TableColumn], &'static [&'static str]>;

pub const ADDRESS: TableColumn = Column("ADDRESS", Text, Always);

pub const BITS: TableColumn = Column("BITS", Bits, Always);

pub const BROKER_ADDRESS: TableColumn = Column("BROKER", Text, Always);

pub const CIRCUIT: TableColumn = Column("CIRCUIT", Text, Always);

pub const FILE: TableColumn = Column("FILE", Text, Always);

pub const K: TableColumn = Column("K", Number(0, (MAX_NODES - 1) as u64), Always);

pub const LOG: TableColumn = Column("LOG", Text, Always);

pub const NAME: TableColumn = Column("NAME", Text, Always);

pub const OUTPUTS: TableColumn = Column("OUTPUTS", Bits, Always);

pub const OUTPUTS_FILE: TableColumn = Column("OUTPUTS", Text, Always);

pub const PROVER_FILE: TableColumn = Column("PROVERFILE", Text, Always);

pub const SIDE: TableColumn = Column("SIDE", Side, Always);

pub const STATEMENTS: TableColumn = Column("STATEMENTS", Text, Always);

pub const TEXT: TableColumn = Column("TEXT", Text, Always);

pub const VALUES: TableColumn = Column("VALUES", Text, Always);

pub const VERIFIER_FILE: TableColumn = Column("VERIFIERFILE", Text, Always);

pub const SOME_BITS: TableColumn = Column("BITS", Bits, Optional);

pub const SOME_CIRCUIT: TableColumn = Column("CIRCUIT", Text, Optional);

pub const ASKS: TableColumn = Column("asks", Number(1, MAX_ASKS as u64), Always);

pub const BASE: TableColumn = Column("base", Number(10, MAX_BASE as u64), Optional);

pub const GATES: TableColumn = Column("gates", Number(1, MAX_GENERATED_GATES as u64), Optional);

pub const HEIGHT: TableColumn = Column("height", Number(1, MAX_HEIGHT as u64), Optional);

pub const LOGS: TableColumn = Column("logs", Text, Optional);

pub const NODE: TableColumn = Column("node", Number(0, (MAX_NODES - 1) as u64), Optional);

pub const OWN_NODE: TableColumn = Column("node", Number(0, (MAX_NODES - 1) as u64), Always);

pub const NUMBER: TableColumn = Column("number", Number(0, u64::MAX), Optional);

pub const PUBLIC: TableColumn = Column("public", Bits, Default("none"));

pub const SECTION: TableColumn = Column(
    "section",
    Number(1, MAX_SECTION_LENGTH as u64),
    Default("1048576"),
);

pub const SESSIONS: TableColumn = Column("sessions", Number(1, MAX_SESSIONS as u64), Always);

pub const SOME_PUBLIC: TableColumn = Column("public", Bits, Optional);

pub const TIMEOUT: TableColumn = Column("timeout", Number(1, MAX_TIMEOUT as u64), Default("120"));

pub const TREES: TableColumn = Column("trees", Number(1, MAX_TREES as u64), Optional);

pub const UNITS: TableColumn = Column("units", Number(1, MAX_DEALT_UNITS), Always);

pub const WORKERS: TableColumn = Column("workers", Number(1, MAX_PASSES as u64), Default("4"));

pub const EXTENDED: &str = "extended";

pub const FOLLOW: &str = "follow";

pub const REHEARSE: TableRow = Row {
    name: "rehearse",
    places: &[SOME_CIRCUIT, SOME_BITS],
    options: &[SECTION, SOME_PUBLIC, GATES, NUMBER],
    flags: &[EXTENDED],
    help: help::REHEARSE,
};

pub const REHEARSE_ARITH: TableRow = Row {
    name: "rehearse-arith",
    places: &[CIRCUIT, VALUES],
    options: &[SECTION],
    flags: &[EXTENDED],
    help: help::REHEARSE_ARITH,
};

pub const REHEARSE_POLY: TableRow = Row {
    name: "rehearse-poly",
    places: &[TEXT, VALUES],
    options: &[SECTION],
    flags: &[EXTENDED],
    help: help::REHEARSE_POLY,
};

pub const EVAL: TableRow = Row {
    name: "eval",
    places: &[CIRCUIT, BITS],
    options: &[],
    flags: &[],
    help: help::EVAL,
};

pub const DEAL: TableRow = Row {
    name: "deal",
    places: &[NAME],
    options: &[UNITS, TREES, HEIGHT, BASE],
    flags: &[],
    help: help::DEAL,
};

pub const SERVE: TableRow = Row {
    name: "serve",
    places: &[ADDRESS, FILE, CIRCUIT, OUTPUTS],
    options: &[PUBLIC, SESSIONS, WORKERS, SECTION, TIMEOUT, LOGS],
    flags: &[FOLLOW],
    help: help::SERVE,
};

pub const SERVE_MANY: TableRow = Row {
    name: "serve-many",
    places: &[ADDRESS, FILE, STATEMENTS],
    options: &[SESSIONS, WORKERS, SECTION, TIMEOUT, LOGS],
    flags: &[FOLLOW],
    help: help::SERVE_MANY,
};

pub const SERVE_ARITH: TableRow = Row {
    name: "serve-arith",
    places: &[ADDRESS, FILE, CIRCUIT, OUTPUTS_FILE],
    options: &[SESSIONS, WORKERS, SECTION, TIMEOUT, LOGS],
    flags: &[FOLLOW],
    help: help::SERVE_ARITH,
};

pub const SERVE_POLY: TableRow = Row {
    name: "serve-poly",
    places: &[ADDRESS, FILE, TEXT],
    options: &[SESSIONS, WORKERS, SECTION, TIMEOUT, LOGS],
    flags: &[FOLLOW],
    help: help::SERVE_POLY,
};

pub const PROVE: TableRow = Row {
    name: "prove",
    places: &[ADDRESS, FILE, CIRCUIT, BITS, OUTPUTS],
    options: &[TIMEOUT, PUBLIC],
    flags: &[],
    help: help::PROVE,
};

pub const PROVE_ARITH: TableRow = Row {
    name: "prove-arith",
    places: &[ADDRESS, FILE, CIRCUIT, VALUES, OUTPUTS_FILE],
    options: &[TIMEOUT],
    flags: &[],
    help: help::PROVE_ARITH,
};

pub const PROVE_POLY: TableRow = Row {
    name: "prove-poly",
    places: &[ADDRESS, FILE, TEXT, VALUES],
    options: &[TIMEOUT],
    flags: &[],
    help: help::PROVE_POLY,
};

pub const AUDIT: TableRow = Row {
    name: "audit",
    places: &[CIRCUIT, OUTPUTS, PROVER_FILE, VERIFIER_FILE, LOG],
    options: &[PUBLIC],
    flags: &[],
    help: help::AUDIT,
};

pub const AUDIT_ARITH: TableRow = Row {
    name: "audit-arith",
    places: &[CIRCUIT, OUTPUTS_FILE, PROVER_FILE, VERIFIER_FILE, LOG],
    options: &[],
    flags: &[],
    help: help::AUDIT_ARITH,
};

pub const MIGRATE: TableRow = Row {
    name: "migrate",
    places: &[SIDE, FILE],
    options: &[],
    flags: &[],
    help: help::MIGRATE,
};

pub const STATUS: TableRow = Row {
    name: "status",
    places: &[FILE, SOME_CIRCUIT],
    options: &[NODE],
    flags: &[],
    help: help::STATUS,
};

pub const NEW_NODE: TableRow = Row {
    name: "node",
    places: &[FILE, K],
    options: &[],
    flags: &[],
    help: help::NODE,
};

pub const BROKER: TableRow = Row {
    name: "broker",
    places: &[ADDRESS, FILE],
    options: &[ASKS, TIMEOUT],
    flags: &[FOLLOW],
    help: help::BROKER,
};

pub const SERVE_NODE: TableRow = Row {
    name: "serve-node",
    places: &[ADDRESS, BROKER_ADDRESS, FILE, CIRCUIT, OUTPUTS],
    options: &[OWN_NODE, SESSIONS, TIMEOUT],
    flags: &[FOLLOW],
    help: help::SERVE_NODE,
};

/// A command's name.
#[derive(Clone, Copy)]
pub enum Name {
    Rehearse,
    RehearseArith,
    RehearsePoly,
    Eval,
    Deal,
    Serve,
    ServeMany,
    ServeArith,
    ServePoly,
    Prove,
    ProveArith,
    ProvePoly,
    Audit,
    AuditArith,
    Migrate,
    Status,
    Node,
    Broker,
    ServeNode,
}

/// Each of them.
pub const NAMES: &[Name] = &[
    Name::Rehearse,
    Name::RehearseArith,
    Name::RehearsePoly,
    Name::Eval,
    Name::Deal,
    Name::Serve,
    Name::ServeMany,
    Name::ServeArith,
    Name::ServePoly,
    Name::Prove,
    Name::ProveArith,
    Name::ProvePoly,
    Name::Audit,
    Name::AuditArith,
    Name::Migrate,
    Name::Status,
    Name::Node,
    Name::Broker,
    Name::ServeNode,
];

impl Name {
    /// The command that a word names.
    #[tactic(auto, unfolding(crate::specs::Rows::named))]
    pub fn named(word: &str) -> Option<Self>
        ensures { result ≡ named word.now }
    {
        NAMES.iter().copied().find(|name| name.row().name == word)
    }

    /// Its row of the table.
    pub fn row(self) -> TableRow
        ensures { row_at result ≡ row_of self }
    {
        match self {
            Name::Rehearse => REHEARSE,
            Name::RehearseArith => REHEARSE_ARITH,
            Name::RehearsePoly => REHEARSE_POLY,
            Name::Eval => EVAL,
            Name::Deal => DEAL,
            Name::Serve => SERVE,
            Name::ServeMany => SERVE_MANY,
            Name::ServeArith => SERVE_ARITH,
            Name::ServePoly => SERVE_POLY,
            Name::Prove => PROVE,
            Name::ProveArith => PROVE_ARITH,
            Name::ProvePoly => PROVE_POLY,
            Name::Audit => AUDIT,
            Name::AuditArith => AUDIT_ARITH,
            Name::Migrate => MIGRATE,
            Name::Status => STATUS,
            Name::Node => NEW_NODE,
            Name::Broker => BROKER,
            Name::ServeNode => SERVE_NODE,
        }
    }
}
