// The bits that words give, some of which name a file of them.
ghost use Rattle.std.specs.Prelude.{◌≡◌, ◌++◌, IfOk, IfErr, OnOk};
ghost use Rattle.std.specs.List.{prefix_len};
ghost use Rattle.zk_model.specs.Bits.{digits_of};
ghost use Rattle.zk_port.specs.Changes.{change};
ghost use Rattle.command_words.specs.Commands.{IsWithinLimits, ask_of, bits_ask, known_bits};
ghost use Rattle.command_words.specs.BitWords.{named};
ghost use Rattle.file_commands.specs.BitsTexts.{SaysBits, wanted_bits, is_end};
ghost use Rattle.file_commands.specs.Effects.{OnlyLoads, IsName};
ghost use Rattle.file_commands.specs.GivenBits.{AreGiven, BitsFileStop, ClaimedStop, CutStop, GivenStop, InputsStop, IsAskGiven, IsGivenName, IsWordName, IsWordsName, WordStop, cut_refusal, is_bit_digit};

use crate::circuit_file::{load_circuit, load_file};
use crate::refusal::Refusal;
use bristol_reader::Circuit;
use command_words::{
    Ask, AuditAsk, BitsWord, Command, EvalAsk, ProveAsk, RehearseAsk, ServeAsk, ServeNodeAsk,
};
use std::alloc::{AllocError, Global};
use zk_port::Shelf;

/// The record of what is asked for, with these known bits in place of those that words say.
macro_rules! known {
    ($record:ident; $ask:ident; $($kept:ident),*; $($bits:ident),*) => {
        $record { $($kept: $ask.$kept,)* $($bits),* }
    };
}

/// What the text of a file of bits says.
#[derive(Debug, Drop)]
enum BitsText {
    /// These bits.
    Bits(Vec<bool>),
    /// None: so many digits stand before the first byte that is no 0 and no 1.
    Cut { got: u64 },
}

/// Which bits of a circuit are wanted.
#[derive(Clone, Copy)]
enum WantedBits<'a> {
    /// The public ones.
    Public,
    /// The private ones, behind these public ones.
    Private(&'a [bool]),
    /// The outputs.
    Outputs,
}

/// Whether a text of bits ends so behind these digits.
fn is_end(bits: &[bool], rest: &[u8]) -> bool
    ensures { result ≡ is_end bits.now rest.now }
{
    if bits.is_empty() {
        rest == b"none".as_slice() || rest == b"none\n".as_slice()
    } else {
        rest.is_empty() || rest == b"\n".as_slice()
    }
}

/// What a text says in which the digits of these bits stand before this rest.
fn bits_before(bits: Vec<bool>, rest: &[u8]) -> BitsText
    requires { prefix_len is_bit_digit rest.now ≡ 0 }
    ensures { SaysBits (digits_of bits.items ++ rest.now) result }
{
    if is_end(&bits, rest) {
        BitsText::Bits(bits)
    } else {
        BitsText::Cut {
            got: bits.len() as u64,
        }
    }
}

/// What the text of a file of bits says: their digits, or `none`, with a line feed at the end or without.
fn bits_in(alloc: Global, text: &[u8]) -> Result<BitsText, AllocError>
    ensures { IfOk result (SaysBits text.now) }
{
    let mut bits = Vec::new(alloc);
    let mut rest = text;
    while let [byte, behind @ ..] = rest {
        match byte {
            b'0' => bits.push(false)?,
            b'1' => bits.push(true)?,
            _ => break,
        }
        rest = behind;
    }
    Ok(bits_before(bits, rest))
}

/// That so many bits are not those that are wanted of the circuit.
fn cut_refusal(circuit: &Circuit, wanted: WantedBits<'_>, got: u64) -> Refusal
    ensures { result ≡ cut_refusal circuit.now (wanted_bits wanted.entry) got }
{
    let inputs = circuit.inputs() as u64;
    match wanted {
        WantedBits::Public => Refusal::ManyPublic { inputs, got },
        WantedBits::Private(public) => {
            let count = public.len() as u64;
            if count <= inputs {
                let need = inputs - count;
                Refusal::WrongBits { need, got }
            } else {
                Refusal::ManyPublic { inputs, got: count }
            }
        }
        WantedBits::Outputs => Refusal::WrongOutputs {
            need: circuit.outputs() as u64,
            got,
        },
    }
}

/// Why so many bits are refused: they are not those that are wanted of the circuit under this name, or it can't be had.
fn refuse_cut<F: Shelf>(
    alloc: Global,
    shelf: &mut F,
    circuit: &str,
    wanted: WantedBits<'_>,
    got: u64,
) -> Refusal
    ensures stop { CutStop circuit.now (wanted_bits wanted.entry) got
        (change (F.state shelf.old) (F.state shelf.new)) result }
    ensures kept { OnlyLoads (IsName circuit.now) (change (F.state shelf.old) (F.state shelf.new)) }
{
    match load_circuit(alloc, shelf, circuit) {
        Ok(circuit) => cut_refusal(&circuit, wanted, got),
        Err(stop) => stop,
    }
}

/// The bits in the file of this name.
fn file_bits<F: Shelf>(
    alloc: Global,
    shelf: &mut F,
    circuit: &str,
    wanted: WantedBits<'_>,
    name: &str,
) -> Result<Vec<bool>, Refusal>
    ensures given { IfOk result (λ bits. AreGiven (F.state shelf.old).told (named name.now) bits.items) }
    ensures quiet { OnOk result (F.state shelf.new ≡ F.state shelf.old) }
    ensures stop { IfErr result (BitsFileStop circuit.now (wanted_bits wanted.entry) name.now
        (change (F.state shelf.old) (F.state shelf.new))) }
    ensures kept { OnlyLoads (IsWordName circuit.now (named name.now))
        (change (F.state shelf.old) (F.state shelf.new)) }
{
    let text = load_file(alloc, shelf, name)?;
    match bits_in(alloc, &text) {
        Ok(BitsText::Bits(bits)) => Ok(bits),
        Ok(BitsText::Cut { got }) => Err(refuse_cut(alloc, shelf, circuit, wanted, got)),
        Err(_) => Err(Refusal::NoMemory),
    }
}

/// The bits that a word gives.
fn word_bits<F: Shelf>(
    alloc: Global,
    shelf: &mut F,
    word: BitsWord,
    wanted: WantedBits<'_>,
    circuit: &str,
) -> Result<Vec<bool>, Refusal>
    ensures given { IfOk result (λ bits. AreGiven (F.state shelf.old).told (bits_ask word) bits.items) }
    ensures quiet { OnOk result (F.state shelf.new ≡ F.state shelf.old) }
    ensures stop { IfErr result (WordStop circuit.now (wanted_bits wanted.entry) (bits_ask word)
        (change (F.state shelf.old) (F.state shelf.new))) }
    ensures kept { OnlyLoads (IsWordName circuit.now (bits_ask word))
        (change (F.state shelf.old) (F.state shelf.new)) }
{
    match word {
        BitsWord::Said(bits) => Ok(bits),
        BitsWord::Named(name) => file_bits(alloc, shelf, circuit, wanted, &name),
    }
}

/// The public bits and the private ones that two words give.
fn input_bits<F: Shelf>(
    alloc: Global,
    shelf: &mut F,
    public: BitsWord,
    bits: BitsWord,
    circuit: &str,
) -> Result<(Vec<bool>, Vec<bool>), Refusal>
    ensures public { IfOk result (λ known.
        AreGiven (F.state shelf.old).told (bits_ask public) known.0.items) }
    ensures bits { IfOk result (λ known.
        AreGiven (F.state shelf.old).told (bits_ask bits) known.1.items) }
    ensures quiet { OnOk result (F.state shelf.new ≡ F.state shelf.old) }
    ensures stop { IfErr result (InputsStop circuit.now (bits_ask public) (bits_ask bits)
        (change (F.state shelf.old) (F.state shelf.new))) }
    ensures kept { OnlyLoads (IsWordsName circuit.now (bits_ask public) (bits_ask bits))
        (change (F.state shelf.old) (F.state shelf.new)) }
{
    let public = word_bits(alloc, shelf, public, WantedBits::Public, circuit)?;
    let bits = word_bits(alloc, shelf, bits, WantedBits::Private(&public), circuit)?;
    Ok((public, bits))
}

/// The public bits and the outputs that two words give.
fn claimed_bits<F: Shelf>(
    alloc: Global,
    shelf: &mut F,
    public: BitsWord,
    outputs: BitsWord,
    circuit: &str,
) -> Result<(Vec<bool>, Vec<bool>), Refusal>
    ensures public { IfOk result (λ known.
        AreGiven (F.state shelf.old).told (bits_ask public) known.0.items) }
    ensures outputs { IfOk result (λ known.
        AreGiven (F.state shelf.old).told (bits_ask outputs) known.1.items) }
    ensures quiet { OnOk result (F.state shelf.new ≡ F.state shelf.old) }
    ensures stop { IfErr result (ClaimedStop circuit.now (bits_ask public) (bits_ask outputs)
        (change (F.state shelf.old) (F.state shelf.new))) }
    ensures kept { OnlyLoads (IsWordsName circuit.now (bits_ask public) (bits_ask outputs))
        (change (F.state shelf.old) (F.state shelf.new)) }
{
    let public = word_bits(alloc, shelf, public, WantedBits::Public, circuit)?;
    let outputs = word_bits(alloc, shelf, outputs, WantedBits::Outputs, circuit)?;
    Ok((public, outputs))
}

/// The command with the bits that its words, and the files that they name, give; or why they give none.
///
/// Public bits are taken first, then private ones, then outputs. A file that has other bytes than the word of bits, with a line
/// feed behind it or without, is refused by what is wanted of the circuit, which is loaded to say it: `Refusal::ManyPublic`,
/// `Refusal::WrongBits` or `Refusal::WrongOutputs`, with how many digits stand before the first other byte.
pub fn read_given<F: Shelf>(
    alloc: Global,
    shelf: &mut F,
    command: Command<BitsWord>,
) -> Result<Command<Vec<bool>>, Refusal>
    requires limits { IsWithinLimits command }
    ensures given { IfOk result (λ found. IsAskGiven (F.state shelf.old).told
        (ask_of bits_ask command) (ask_of known_bits found)) }
    ensures limits { IfOk result (λ found. IsWithinLimits found) }
    ensures quiet { OnOk result (F.state shelf.new ≡ F.state shelf.old) }
    ensures stop { IfErr result (GivenStop (ask_of bits_ask command)
        (change (F.state shelf.old) (F.state shelf.new))) }
    ensures kept { OnlyLoads (IsGivenName (ask_of bits_ask command))
        (change (F.state shelf.old) (F.state shelf.new)) }
{
    match command {
        Ask::Rehearse(ask) => {
            let (public, bits) = input_bits(alloc, shelf, ask.public, ask.bits, &ask.circuit)?;
            Ok(Ask::Rehearse(known!(RehearseAsk; ask; circuit, kind, section; public, bits)))
        }
        Ask::Generate(ask) => Ok(Ask::Generate(ask)),
        Ask::RehearseArith(ask) => Ok(Ask::RehearseArith(ask)),
        Ask::RehearsePoly(ask) => Ok(Ask::RehearsePoly(ask)),
        Ask::Eval(ask) => {
            let wanted = WantedBits::Private(&[]);
            let bits = word_bits(alloc, shelf, ask.bits, wanted, &ask.circuit)?;
            Ok(Ask::Eval(known!(EvalAsk; ask; circuit; bits)))
        }
        Ask::Deal(ask) => Ok(Ask::Deal(ask)),
        Ask::Serve(ask) => {
            let (public, outputs) = claimed_bits(
                alloc,
                shelf,
                ask.public,
                ask.outputs,
                &ask.circuit,
            )?;
            Ok(Ask::Serve(known!(ServeAsk; ask; address, file, circuit, options; public, outputs)))
        }
        Ask::ServeMany(ask) => Ok(Ask::ServeMany(ask)),
        Ask::ServeArith(ask) => Ok(Ask::ServeArith(ask)),
        Ask::ServePoly(ask) => Ok(Ask::ServePoly(ask)),
        Ask::Prove(ask) => {
            let (public, bits) = input_bits(alloc, shelf, ask.public, ask.bits, &ask.circuit)?;
            let outputs = word_bits(alloc, shelf, ask.outputs, WantedBits::Outputs, &ask.circuit)?;
            Ok(Ask::Prove(
                known!(ProveAsk; ask; address, file, circuit, timeout; public, bits, outputs),
            ))
        }
        Ask::ProveArith(ask) => Ok(Ask::ProveArith(ask)),
        Ask::ProvePoly(ask) => Ok(Ask::ProvePoly(ask)),
        Ask::Audit(ask) => {
            let (public, outputs) = claimed_bits(
                alloc,
                shelf,
                ask.public,
                ask.outputs,
                &ask.circuit,
            )?;
            Ok(Ask::Audit(known!(AuditAsk; ask; circuit, prover, verifier, log; public, outputs)))
        }
        Ask::AuditArith(ask) => Ok(Ask::AuditArith(ask)),
        Ask::Migrate(ask) => Ok(Ask::Migrate(ask)),
        Ask::Status(ask) => Ok(Ask::Status(ask)),
        Ask::Node(ask) => Ok(Ask::Node(ask)),
        Ask::Broker(ask) => Ok(Ask::Broker(ask)),
        Ask::ServeNode(ask) => {
            let wanted = WantedBits::Outputs;
            let outputs = word_bits(alloc, shelf, ask.outputs, wanted, &ask.circuit)?;
            Ok(Ask::ServeNode(
                known!(ServeNodeAsk; ask; address, broker, file, circuit, node, sessions, timeout, follow; outputs),
            ))
        }
    }
}
