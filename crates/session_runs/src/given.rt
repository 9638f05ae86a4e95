// What stands there before a run of the program: files by their names, and the journal's disk.
use crate::cases::set_byte;
use crate::journals::journal_of;
use crate::piece_link::plan_of;
use crate::scenario::{Areas, GivenFiles, Refused, RefusedCalls, Scenario, read_pair};
use crate::scene::{input_bits, params_of};
use crate::sessions::SEED;
use anyhow::{Error, Result};
use bristol_reader::read;
use command_words::write_bits;
use dealer_files::{ProverFile, VerifierFile, deal};
use memory_ports::{FailAt, MemoryDisk, MemoryShelf, QuietDisk};
use sha2::{Digest, Sha256};
use std::alloc::Global;
use std::collections::BTreeMap;
use twin_journal::JournalKind;

/// How many calls a disk has room for, beside one for each 32 bytes.
const DISK_CALLS: usize = 160;

/// What stands there before a run: files by their names, what the journal's disk has, and for how many bytes it has room.
#[derive(Drop)]
pub struct Given {
    files: BTreeMap<String, Vec<u8>>,
    journal: Vec<u8>,
    room: usize,
}

/// The circuit's text, with more behind it, where `_` is a space, and line feeds up to a size.
fn circuit_text(alloc: Global, text: &[u8], files: &GivenFiles<'_>) -> Result<Vec<u8>> {
    let mut text = text.to_vec(alloc)?;
    for byte in files.tail.bytes() {
        text.push(if byte == b'_' { b' ' } else { byte })?;
    }
    if text.len() < files.size {
        text.resize(files.size, b'\n')?;
    }
    Ok(text)
}

/// The text of a word in which `+` stands for a space, and `/` for the end of a line.
fn word_text(alloc: Global, word: &str) -> Result<Vec<u8>> {
    let mut text = Vec::new(alloc);
    for byte in word.bytes() {
        let byte = match byte {
            b'+' => b' ',
            b'/' => b'\n',
            _ => byte,
        };
        text.push(byte)?;
    }
    Ok(text)
}

/// Has a dealt file be one of this version: its magic word ends in the version's digit, and its digest fits.
fn set_version(bytes: &mut [u8], version: u64) -> Result<()> {
    set_byte(bytes, 7, version.saturating_add(48))?;
    if bytes.len() < 32 {
        return Err(Error::msg("no dealt file"));
    }
    let (content, digest) = bytes.split_at_mut(bytes.len() - 32);
    digest.copy_from_slice(&Sha256::digest(content));
    Ok(())
}

/// A dealt file of this version, cut or with zero bytes after it, in which bytes are others, as `7:50+8:1`, those behind its end aside.
fn dealt_file(bytes: Vec<u8>, version: u64, given: &GivenFiles<'_>) -> Result<Vec<u8>> {
    let mut bytes = bytes;
    set_version(&mut bytes, version)?;
    if let Some(size) = given.dealt_size {
        bytes.resize(size, 0)?;
    }
    for change in given.damage.split('+').filter(|change| !change.is_empty()) {
        let (place, byte) = read_pair(change, ":")?;
        if place < bytes.len() as u64 {
            set_byte(&mut bytes, place, byte)?;
        }
    }
    Ok(bytes)
}

/// Puts these bytes under a name.
fn put(
    alloc: Global,
    files: &mut BTreeMap<String, Vec<u8>>,
    name: &str,
    bytes: Vec<u8>,
) -> Result<()> {
    let name = String::from_str(alloc, name)?;
    files.insert(name, bytes)?;
    Ok(())
}

/// Puts the dealt files of both ends under their names.
fn put_dealt(
    alloc: Global,
    files: &mut BTreeMap<String, Vec<u8>>,
    given: &GivenFiles<'_>,
    prover: &ProverFile,
    verifier: &VerifierFile,
) -> Result<()> {
    let (first, second) = given.versions;
    let bytes = dealt_file(prover.encode(alloc)?, first, given)?;
    put(alloc, files, "x.prover", bytes)?;
    let bytes = dealt_file(verifier.encode(alloc)?, second, given)?;
    put(alloc, files, "x.verifier", bytes)
}

/// Puts the circuit under its name, and the files of statements, of values and of outputs and the log that are stated.
fn put_stated(
    alloc: Global,
    files: &mut BTreeMap<String, Vec<u8>>,
    scenario: &Scenario<'_>,
) -> Result<()> {
    let given = &scenario.outside.files;
    let text = circuit_text(alloc, scenario.text, given)?;
    put(alloc, files, scenario.circuit, text)?;
    put(
        alloc,
        files,
        "statements",
        word_text(alloc, given.statements)?,
    )?;
    put(alloc, files, "values", word_text(alloc, given.values)?)?;
    put(alloc, files, "claimed", word_text(alloc, given.claimed)?)?;
    put(alloc, files, "log", hex::decode(alloc, given.log)?)
}

/// What stands there: the dealt files of both ends, the circuit under its name, and the journal of this kind.
pub fn given_of(alloc: Global, scenario: &Scenario<'_>, kind: JournalKind) -> Result<Given> {
    let params = params_of(scenario.dealt)?;
    let (prover, verifier) = deal(alloc, &params, &SEED)?;
    let journal = journal_of(alloc, &scenario.outside.journal, kind, &verifier)?;
    let room = room_of(scenario.outside.journal.areas, journal.len());
    let mut files = BTreeMap::new(alloc);
    put_dealt(
        alloc,
        &mut files,
        &scenario.outside.files,
        &prover,
        &verifier,
    )?;
    put_stated(alloc, &mut files, scenario)?;
    Ok(Given {
        files,
        journal,
        room,
    })
}

/// The same over the disk as a crash has left it.
pub fn given_again(
    alloc: Global,
    scenario: &Scenario<'_>,
    kind: JournalKind,
    image: Vec<u8>,
) -> Result<Given> {
    let mut given = given_of(alloc, scenario, kind)?;
    given.journal = image;
    Ok(given)
}

/// For how many bytes a disk has room: behind a journal of one area for one of two.
fn room_of(areas: Areas, length: usize) -> usize {
    match areas {
        Areas::One => length.saturating_mul(3).saturating_add(1024),
        Areas::Two | Areas::Moved => length,
    }
}

/// A disk that tells nothing of what it has, which is this.
fn disk_of(
    alloc: Global,
    bytes: Vec<u8>,
    room: usize,
    refused: Refused,
) -> Result<QuietDisk<FailAt>> {
    let plan = plan_of(alloc, refused)?;
    let calls = DISK_CALLS + room / 32;
    let disk = MemoryDisk::new(alloc, bytes, room, calls, plan)?;
    Ok(QuietDisk { disk })
}

impl Given {
    /// The shelf and the disk, of which these calls are refused.
    pub fn opened(
        self,
        alloc: Global,
        refused: RefusedCalls,
    ) -> Result<(MemoryShelf<FailAt>, QuietDisk<FailAt>)> {
        let Given {
            files,
            journal,
            room,
        } = self;
        let disk = disk_of(alloc, journal, room, refused.disk)?;
        let shelf = MemoryShelf::new(files, plan_of(alloc, refused.shelf)?);
        Ok((shelf, disk))
    }
}

/// The words of a line, with commas between them; `BITS` stands for the private bits of the circuit's inputs.
pub fn words_of(alloc: Global, scenario: &Scenario<'_>, line: &str) -> Result<Vec<String>> {
    let mut words = Vec::new(alloc);
    for word in line.split(',') {
        words.push(word_of(alloc, scenario, word)?)?;
    }
    Ok(words)
}

fn word_of(alloc: Global, scenario: &Scenario<'_>, word: &str) -> Result<String> {
    if word != "BITS" {
        return Ok(String::from_str(alloc, word)?);
    }
    let circuit = read(alloc, scenario.text)?;
    let bits = input_bits(alloc, &circuit, scenario)?;
    let (_, private) = bits.all.split_at(bits.public);
    Ok(write_bits(alloc, private)?)
}
