// What a command's words ask for, from what was found in them: a function of each command.
#![tactic(auto, unfolding(crate::specs::Reading::asked_found))]

ghost use Rattle.std.specs.Prelude.{◌≡◌, ◌≤◌, ◌↔◌, [], map, string_bytes, IfOk, IfSome, IsTrue};
ghost use Rattle.std.specs.Option.{option_and_then, option_map};
ghost use Rattle.command_words.specs.BitWords.{bits_word_of, said};
ghost use Rattle.command_words.specs.Commands.{ask_of, bits_ask, named_options, AreServeLimits, IsSectionSize, IsWithinLimits};
ghost use Rattle.command_words.specs.Reading.{asked_in, number_of, options_of, service_given, word_at, word_in, IsOfKind, IsReadTo};
ghost use Rattle.command_words.specs.Rows.{column_at, read_optional, side_of};
ghost use Rattle.command_words.specs.Words.{kind_by, params_by, rehearse_by};
ghost use Rattle.command_words.specs.declared.reading.Unread.TheVariants.{NoMemory};
ghost use Rattle.command_words.specs.declared.table.TheConstants.{BASE, GATES, HEIGHT, TREES, UNITS};
ghost use Rattle.command_words.specs.declared.table.Name.TheVariants as name;
ghost use Rattle.zk_model.specs.Files.{AreParams};
ghost use Rattle.dealer_files.specs.FileFaults.{file_length};
ghost use Rattle.zk_model.specs.declared.Side.TheVariants.{Prover, Verifier};
ghost use Rattle.zk_model.specs.declared.limits.TheConstants.{FILE_LIMIT};

use crate::asks::{
    Ask, AuditArithAsk, AuditAsk, BrokerAsk, DealAsk, EvalAsk, GenerateAsk, MigrateAsk, NodeAsk,
    ProveArithAsk, ProveAsk, ProvePolyAsk, RehearseArithAsk, RehearseAsk, RehearsePolyAsk,
    SaidCommand, ServeArithAsk, ServeAsk, ServeManyAsk, ServeNodeAsk, ServeOptions, ServePolyAsk,
    StatusAsk,
};
use crate::bits::{BitsWord, read_bits_word};
use crate::found::{At, Found};
use crate::numbers::read_number;
use crate::table::{
    ASKS, BASE, EXTENDED, FOLLOW, GATES, HEIGHT, K, LOGS, NODE, NUMBER, OWN_NODE, PUBLIC, SECTION,
    SESSIONS, SOME_PUBLIC, TIMEOUT, TREES, TableColumn, UNITS, WORKERS, WordKind,
};
use dealer_files::file_length;
use std::alloc::{AllocError, Global};
use zk_model::{FILE_LIMIT, Kind, Params, Side};

/// Why nothing is read.
#[derive(Clone, Copy, Debug)]
pub enum Unread {
    /// The words are not valid.
    Invalid,
    /// Memory is missing.
    NoMemory,
}

impl From<AllocError> for Unread {
    ghost from_gives = { λ _ e. e ≡ NoMemory };

    fn from(_error: AllocError) -> Self {
        Unread::NoMemory
    }
}

impl Found<'_> {
    /// A text.
    fn text(&self, alloc: Global, at: At<TableColumn>) -> Result<String, Unread>
        ensures { IsReadTo (λ t. string_bytes t) (word_in at.entry self.now) result }
    {
        let word = self.word(at).ok_or(Unread::Invalid)?;
        Ok(String::from_str(alloc, word)?)
    }

    /// A text that may be left out.
    fn some_text(&self, alloc: Global, at: At<TableColumn>) -> Result<Option<String>, Unread>
        ensures { IsReadTo (option_map (λ t. string_bytes t))
            (read_optional (λ w. Some w) (word_in at.entry self.now)) result }
    {
        match self.word(at) {
            Some(word) => Ok(Some(String::from_str(alloc, word)?)),
            None => Ok(None),
        }
    }

    /// Bits, or the file that has them.
    fn bits(&self, alloc: Global, at: At<TableColumn>) -> Result<BitsWord, Unread>
        ensures { IsReadTo bits_ask (option_and_then bits_word_of (word_in at.entry self.now)) result }
    {
        let word = self.word(at).ok_or(Unread::Invalid)?;
        let found = read_bits_word(alloc, word)?;
        found.ok_or(Unread::Invalid)
    }

    /// Bits that may be left out.
    fn some_bits(&self, alloc: Global, at: At<TableColumn>) -> Result<Option<BitsWord>, Unread>
        ensures { IsReadTo (option_map bits_ask)
            (read_optional bits_word_of (word_in at.entry self.now)) result }
    {
        match self.word(at) {
            Some(_) => Ok(Some(self.bits(alloc, at)?)),
            None => Ok(None),
        }
    }

    /// The side that a word names.
    fn side(&self, at: At<TableColumn>) -> Result<Side, Unread>
        ensures { IsReadTo (λ s. s) (option_and_then side_of (word_in at.entry self.now)) result }
    {
        match self.word(at) {
            Some("prover") => Ok(Side::Prover),
            Some("verifier") => Ok(Side::Verifier),
            _ => Err(Unread::Invalid),
        }
    }

    /// The number that a word of this kind says.
    fn placed_number(&self, at: At<TableColumn>, kind: WordKind) -> Result<u64, Unread>
        ensures value { IsReadTo (λ n. n) (option_and_then (number_of kind) (word_in at.entry self.now)) result }
        ensures limits { IfOk result (IsOfKind kind) }
    {
        match (kind, self.word(at)) {
            (WordKind::Number(low, high), Some(word)) => {
                read_number(word, low, high).ok_or(Unread::Invalid)
            }
            _ => Err(Unread::Invalid),
        }
    }

    /// The number behind an option.
    fn number(&self, option: TableColumn) -> Result<u64, Unread>
        ensures value { IsReadTo (λ n. n) (option_and_then (number_of (column_at option.entry).1)
            (word_at (column_at option.entry) (options_of self.now))) result }
        ensures limits { IfOk result (IsOfKind (column_at option.entry).1) }
    {
        match (option.1, self.word(At::Behind(option))) {
            (WordKind::Number(low, high), Some(word)) => {
                read_number(word, low, high).ok_or(Unread::Invalid)
            }
            _ => Err(Unread::Invalid),
        }
    }

    /// The number behind an option that may be left out.
    fn some_number(&self, option: TableColumn) -> Result<Option<u64>, Unread>
        ensures value { IsReadTo (λ n. n) (read_optional (number_of (column_at option.entry).1)
            (word_at (column_at option.entry) (options_of self.now))) result }
        ensures limits { IfOk result (λ n. IfSome n (IsOfKind (column_at option.entry).1)) }
    {
        match self.word(At::Behind(option)) {
            Some(_) => Ok(Some(self.number(option)?)),
            None => Ok(None),
        }
    }
}

/// A rehearsal of the circuit that is named, or of a generated one.
pub fn rehearse(alloc: Global, found: &Found) -> Result<SaidCommand, Unread>
    ensures asked { IsReadTo (ask_of bits_ask) (asked_in name.Rehearse found.now) result }
    ensures limits { IfOk result IsWithinLimits }
{
    let circuit = found.some_text(alloc, At::Place(0))?;
    let bits = found.some_bits(alloc, At::Place(1))?;
    let section = found.number(SECTION)? as u32;
    let public = found.some_bits(alloc, At::Behind(SOME_PUBLIC))?;
    let gates = found.some_number(GATES)?;
    let number = found.some_number(NUMBER)?;
    let extended = found.flag(EXTENDED);
    let none = BitsWord::Said(Vec::new(alloc));
    match named_or_generated(
        circuit, bits, section, public, gates, number, extended, none,
    ) {
        Some(command) => Ok(command),
        None => Err(Unread::Invalid),
    }
}

/// A rehearsal of the circuit that is named, with these public bits or none, or of one of so many gates.
fn named_or_generated(
    circuit: Option<String>,
    bits: Option<BitsWord>,
    section: u32,
    public: Option<BitsWord>,
    gates: Option<u64>,
    number: Option<u64>,
    extended: bool,
    none: BitsWord,
) -> Option<SaidCommand>
    requires section { IsSectionSize section }
    requires gates { IfSome gates (IsOfKind GATES.1) }
    requires none { bits_ask none ≡ said [] }
    ensures asked { option_map (ask_of bits_ask) result ≡ rehearse_by
        (option_map (λ c. string_bytes c) circuit) (option_map bits_ask bits) section
        (option_map bits_ask public) gates number extended }
    ensures limits { IfSome result IsWithinLimits }
{
    match (circuit, bits, public, gates, number) {
        (Some(circuit), Some(bits), public, None, None) => Some(Ask::Rehearse(RehearseAsk {
            circuit,
            public: public.unwrap_or(none),
            bits,
            kind: kind(extended),
            section,
        })),
        (None, None, None, Some(gates), Some(number)) => Some(Ask::Generate(GenerateAsk {
            gates: gates as u32,
            number,
            kind: kind(extended),
            section,
        })),
        _ => None,
    }
}

/// The kind of files for which `--extended` may stand.
fn kind(extended: bool) -> Kind
    ensures { result ≡ kind_by extended }
{
    if extended {
        Kind::Extended
    } else {
        Kind::Direct
    }
}

/// A rehearsal of an arithmetic circuit.
pub fn rehearse_arith(alloc: Global, found: &Found) -> Result<SaidCommand, Unread>
    ensures asked { IsReadTo (ask_of bits_ask) (asked_in name.RehearseArith found.now) result }
    ensures limits { IfOk result IsWithinLimits }
{
    Ok(Ask::RehearseArith(RehearseArithAsk {
        circuit: found.text(alloc, At::Place(0))?,
        values: found.text(alloc, At::Place(1))?,
        section: found.number(SECTION)? as u32,
        kind: kind(found.flag(EXTENDED)),
    }))
}

/// A rehearsal of constraints.
pub fn rehearse_poly(alloc: Global, found: &Found) -> Result<SaidCommand, Unread>
    ensures asked { IsReadTo (ask_of bits_ask) (asked_in name.RehearsePoly found.now) result }
    ensures limits { IfOk result IsWithinLimits }
{
    Ok(Ask::RehearsePoly(RehearsePolyAsk {
        text: found.text(alloc, At::Place(0))?,
        values: found.text(alloc, At::Place(1))?,
        section: found.number(SECTION)? as u32,
        kind: kind(found.flag(EXTENDED)),
    }))
}

/// An evaluation.
pub fn eval(alloc: Global, found: &Found) -> Result<SaidCommand, Unread>
    ensures asked { IsReadTo (ask_of bits_ask) (asked_in name.Eval found.now) result }
    ensures limits { IfOk result IsWithinLimits }
{
    Ok(Ask::Eval(EvalAsk {
        circuit: found.text(alloc, At::Place(0))?,
        bits: found.bits(alloc, At::Place(1))?,
    }))
}

/// A dealing, if both files may be loaded again.
pub fn deal(alloc: Global, found: &Found) -> Result<SaidCommand, Unread>
    ensures asked { IsReadTo (ask_of bits_ask) (asked_in name.Deal found.now) result }
    ensures limits { IfOk result IsWithinLimits }
{
    let name = found.text(alloc, At::Place(0))?;
    let units = found.number(UNITS)?;
    let trees = found.some_number(TREES)?;
    let height = found.some_number(HEIGHT)?;
    let base = found.some_number(BASE)?;
    let params = read_params(units, trees, height, base).ok_or(Unread::Invalid)?;
    if !are_loadable(&params) {
        return Err(Unread::Invalid);
    }
    Ok(Ask::Deal(DealAsk { name, params }))
}

/// What dealt files are made for.
fn read_params(
    units: u64,
    trees: Option<u64>,
    height: Option<u64>,
    base: Option<u64>,
) -> Option<Params>
    requires units { IsOfKind UNITS.1 units }
    requires trees { IfSome trees (IsOfKind TREES.1) }
    requires height { IfSome height (IsOfKind HEIGHT.1) }
    requires base { IfSome base (IsOfKind BASE.1) }
    ensures params { result ≡ params_by units trees height base }
    ensures limits { IfSome result AreParams }
{
    match (trees, height, base) {
        (None, None, None) => Some(Params {
            kind: Kind::Direct,
            height: 0,
            trees: 0,
            base: 0,
            total: units,
        }),
        (Some(trees), Some(height), Some(base)) => Some(Params {
            kind: Kind::Extended,
            height: height as u8,
            trees: trees as u32,
            base: base as u32,
            total: units,
        }),
        _ => None,
    }
}

/// Whether no file of these numbers has more bytes than may be loaded.
fn are_loadable(params: &Params) -> bool
    requires { AreParams params.now }
    ensures { IsTrue result ↔ ((file_length Prover params.now ≤ FILE_LIMIT)
        × (file_length Verifier params.now ≤ FILE_LIMIT)) }
{
    file_length(Side::Prover, params) <= FILE_LIMIT
        && file_length(Side::Verifier, params) <= FILE_LIMIT
}

/// The options of a service.
fn service(alloc: Global, found: &Found) -> Result<ServeOptions<String>, Unread>
    ensures value { IsReadTo named_options (service_given (options_of found.now)) result }
    ensures limits { IfOk result (λ options. AreServeLimits (named_options options)) }
{
    Ok(ServeOptions {
        sessions: found.number(SESSIONS)? as u32,
        workers: found.number(WORKERS)? as u32,
        section: found.number(SECTION)? as u32,
        timeout: found.number(TIMEOUT)? as u32,
        logs: found.some_text(alloc, At::Behind(LOGS))?,
        follow: found.flag(FOLLOW),
    })
}

/// A verifier that serves one statement.
pub fn serve(alloc: Global, found: &Found) -> Result<SaidCommand, Unread>
    ensures asked { IsReadTo (ask_of bits_ask) (asked_in name.Serve found.now) result }
    ensures limits { IfOk result IsWithinLimits }
{
    Ok(Ask::Serve(ServeAsk {
        address: found.text(alloc, At::Place(0))?,
        file: found.text(alloc, At::Place(1))?,
        circuit: found.text(alloc, At::Place(2))?,
        outputs: found.bits(alloc, At::Place(3))?,
        public: found.bits(alloc, At::Behind(PUBLIC))?,
        options: service(alloc, found)?,
    }))
}

/// A verifier that serves several statements.
pub fn serve_many(alloc: Global, found: &Found) -> Result<SaidCommand, Unread>
    ensures asked { IsReadTo (ask_of bits_ask) (asked_in name.ServeMany found.now) result }
    ensures limits { IfOk result IsWithinLimits }
{
    Ok(Ask::ServeMany(ServeManyAsk {
        address: found.text(alloc, At::Place(0))?,
        file: found.text(alloc, At::Place(1))?,
        statements: found.text(alloc, At::Place(2))?,
        options: service(alloc, found)?,
    }))
}

/// A verifier that serves one statement about an arithmetic circuit.
pub fn serve_arith(alloc: Global, found: &Found) -> Result<SaidCommand, Unread>
    ensures asked { IsReadTo (ask_of bits_ask) (asked_in name.ServeArith found.now) result }
    ensures limits { IfOk result IsWithinLimits }
{
    Ok(Ask::ServeArith(ServeArithAsk {
        address: found.text(alloc, At::Place(0))?,
        file: found.text(alloc, At::Place(1))?,
        circuit: found.text(alloc, At::Place(2))?,
        outputs: found.text(alloc, At::Place(3))?,
        options: service(alloc, found)?,
    }))
}

/// A verifier that serves constraints.
pub fn serve_poly(alloc: Global, found: &Found) -> Result<SaidCommand, Unread>
    ensures asked { IsReadTo (ask_of bits_ask) (asked_in name.ServePoly found.now) result }
    ensures limits { IfOk result IsWithinLimits }
{
    Ok(Ask::ServePoly(ServePolyAsk {
        address: found.text(alloc, At::Place(0))?,
        file: found.text(alloc, At::Place(1))?,
        text: found.text(alloc, At::Place(2))?,
        options: service(alloc, found)?,
    }))
}

/// A prover.
pub fn prove(alloc: Global, found: &Found) -> Result<SaidCommand, Unread>
    ensures asked { IsReadTo (ask_of bits_ask) (asked_in name.Prove found.now) result }
    ensures limits { IfOk result IsWithinLimits }
{
    Ok(Ask::Prove(ProveAsk {
        address: found.text(alloc, At::Place(0))?,
        file: found.text(alloc, At::Place(1))?,
        circuit: found.text(alloc, At::Place(2))?,
        bits: found.bits(alloc, At::Place(3))?,
        outputs: found.bits(alloc, At::Place(4))?,
        timeout: found.number(TIMEOUT)? as u32,
        public: found.bits(alloc, At::Behind(PUBLIC))?,
    }))
}

/// A prover of a statement about an arithmetic circuit.
pub fn prove_arith(alloc: Global, found: &Found) -> Result<SaidCommand, Unread>
    ensures asked { IsReadTo (ask_of bits_ask) (asked_in name.ProveArith found.now) result }
    ensures limits { IfOk result IsWithinLimits }
{
    Ok(Ask::ProveArith(ProveArithAsk {
        address: found.text(alloc, At::Place(0))?,
        file: found.text(alloc, At::Place(1))?,
        circuit: found.text(alloc, At::Place(2))?,
        values: found.text(alloc, At::Place(3))?,
        outputs: found.text(alloc, At::Place(4))?,
        timeout: found.number(TIMEOUT)? as u32,
    }))
}

/// A prover of constraints.
pub fn prove_poly(alloc: Global, found: &Found) -> Result<SaidCommand, Unread>
    ensures asked { IsReadTo (ask_of bits_ask) (asked_in name.ProvePoly found.now) result }
    ensures limits { IfOk result IsWithinLimits }
{
    Ok(Ask::ProvePoly(ProvePolyAsk {
        address: found.text(alloc, At::Place(0))?,
        file: found.text(alloc, At::Place(1))?,
        text: found.text(alloc, At::Place(2))?,
        values: found.text(alloc, At::Place(3))?,
        timeout: found.number(TIMEOUT)? as u32,
    }))
}

/// An audit.
pub fn audit(alloc: Global, found: &Found) -> Result<SaidCommand, Unread>
    ensures asked { IsReadTo (ask_of bits_ask) (asked_in name.Audit found.now) result }
    ensures limits { IfOk result IsWithinLimits }
{
    Ok(Ask::Audit(AuditAsk {
        circuit: found.text(alloc, At::Place(0))?,
        outputs: found.bits(alloc, At::Place(1))?,
        prover: found.text(alloc, At::Place(2))?,
        verifier: found.text(alloc, At::Place(3))?,
        log: found.text(alloc, At::Place(4))?,
        public: found.bits(alloc, At::Behind(PUBLIC))?,
    }))
}

/// An audit of a session about an arithmetic circuit.
pub fn audit_arith(alloc: Global, found: &Found) -> Result<SaidCommand, Unread>
    ensures asked { IsReadTo (ask_of bits_ask) (asked_in name.AuditArith found.now) result }
    ensures limits { IfOk result IsWithinLimits }
{
    Ok(Ask::AuditArith(AuditArithAsk {
        circuit: found.text(alloc, At::Place(0))?,
        outputs: found.text(alloc, At::Place(1))?,
        prover: found.text(alloc, At::Place(2))?,
        verifier: found.text(alloc, At::Place(3))?,
        log: found.text(alloc, At::Place(4))?,
    }))
}

/// A migration.
pub fn migrate(alloc: Global, found: &Found) -> Result<SaidCommand, Unread>
    ensures asked { IsReadTo (ask_of bits_ask) (asked_in name.Migrate found.now) result }
    ensures limits { IfOk result IsWithinLimits }
{
    Ok(Ask::Migrate(MigrateAsk {
        side: found.side(At::Place(0))?,
        file: found.text(alloc, At::Place(1))?,
    }))
}

/// A status, of sessions with the circuit that is named.
pub fn status(alloc: Global, found: &Found) -> Result<SaidCommand, Unread>
    ensures asked { IsReadTo (ask_of bits_ask) (asked_in name.Status found.now) result }
    ensures limits { IfOk result IsWithinLimits }
{
    Ok(Ask::Status(StatusAsk {
        file: found.text(alloc, At::Place(0))?,
        circuit: found.some_text(alloc, At::Place(1))?,
        node: found.some_number(NODE)?.map(|node| node as u32),
    }))
}

/// A new node of a verifier's file.
pub fn node(alloc: Global, found: &Found) -> Result<SaidCommand, Unread>
    ensures asked { IsReadTo (ask_of bits_ask) (asked_in name.Node found.now) result }
    ensures limits { IfOk result IsWithinLimits }
{
    Ok(Ask::Node(NodeAsk {
        file: found.text(alloc, At::Place(0))?,
        node: found.placed_number(At::Place(1), K.1)? as u32,
    }))
}

/// A broker of a verifier's file.
pub fn broker(alloc: Global, found: &Found) -> Result<SaidCommand, Unread>
    ensures asked { IsReadTo (ask_of bits_ask) (asked_in name.Broker found.now) result }
    ensures limits { IfOk result IsWithinLimits }
{
    Ok(Ask::Broker(BrokerAsk {
        address: found.text(alloc, At::Place(0))?,
        file: found.text(alloc, At::Place(1))?,
        asks: found.number(ASKS)? as u32,
        timeout: found.number(TIMEOUT)? as u32,
        follow: found.flag(FOLLOW),
    }))
}

/// A node that serves one statement.
pub fn serve_node(alloc: Global, found: &Found) -> Result<SaidCommand, Unread>
    ensures asked { IsReadTo (ask_of bits_ask) (asked_in name.ServeNode found.now) result }
    ensures limits { IfOk result IsWithinLimits }
{
    Ok(Ask::ServeNode(ServeNodeAsk {
        address: found.text(alloc, At::Place(0))?,
        broker: found.text(alloc, At::Place(1))?,
        file: found.text(alloc, At::Place(2))?,
        circuit: found.text(alloc, At::Place(3))?,
        outputs: found.bits(alloc, At::Place(4))?,
        node: found.number(OWN_NODE)? as u32,
        sessions: found.number(SESSIONS)? as u32,
        timeout: found.number(TIMEOUT)? as u32,
        follow: found.flag(FOLLOW),
    }))
}
