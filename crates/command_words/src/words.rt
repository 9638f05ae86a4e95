// What the words of a command line ask for.
ghost use Rattle.std.specs.Prelude.{◌≡◌, IfOk, IfSome};
ghost use Rattle.std.specs.Option.{option_map};
ghost use Rattle.command_words.specs.Commands.{ask_of, bits_ask, IsWithinLimits};
ghost use Rattle.command_words.specs.Forms.{IsReadAs};
ghost use Rattle.command_words.specs.Found.{IsReadBy};
ghost use Rattle.command_words.specs.Reading.{asked_in, IsReadTo};
ghost use Rattle.command_words.specs.Words.{texts, IsRead};

use crate::asks::{Command, SaidCommand};
use crate::bits::BitsWord;
use crate::found::{Found, find_words};
use crate::reading::{
    Unread, audit, audit_arith, broker, deal, eval, migrate, node, prove, prove_arith, prove_poly,
    rehearse, rehearse_arith, rehearse_poly, serve, serve_arith, serve_many, serve_node,
    serve_poly, status,
};
use crate::table::Name;
use std::alloc::{AllocError, Global};

/// The command that the words ask for, if they are valid. Of words that are not valid nothing is read, unless clap reads them as valid
/// ones: `--section=5` as `--section 5`.
pub fn read_words(alloc: Global, words: &[String]) -> Result<Option<Command<BitsWord>>, AllocError>
    ensures asked { IfOk result (λ found.
        IsRead (texts words.now) (option_map (ask_of bits_ask) found)) }
    ensures alike { IfOk result (λ found.
        IfSome found (λ command. IsReadAs (texts words.now) (ask_of bits_ask command))) }
    ensures limits { IfOk result (λ found. IfSome found IsWithinLimits) }
{
    let [first, ..] = words else {
        return Ok(None);
    };
    match Name::named(first.as_str()) {
        Some(name) => read_command(alloc, words, name),
        None => Ok(None),
    }
}

/// The command of this name that the words behind it ask for.
fn read_command(
    alloc: Global,
    words: &[String],
    name: Name,
) -> Result<Option<SaidCommand>, AllocError>
    ensures read { IfOk result (λ found.
        IsReadBy name (texts words.now) (option_map (ask_of bits_ask) found)) }
    ensures limits { IfOk result (λ found. IfSome found IsWithinLimits) }
{
    let row = name.row();
    let Some(found) = find_words(alloc, words, &row)? else {
        return Ok(None);
    };
    match read_found(alloc, name, &found) {
        Ok(command) => Ok(Some(command)),
        Err(Unread::Invalid) => Ok(None),
        Err(Unread::NoMemory) => Err(AllocError),
    }
}

/// What a command's words ask for, from what was found in them.
fn read_found(alloc: Global, name: Name, found: &Found) -> Result<SaidCommand, Unread>
    ensures asked { IsReadTo (ask_of bits_ask) (asked_in name found.now) result }
    ensures limits { IfOk result IsWithinLimits }
{
    match name {
        Name::Rehearse => rehearse(alloc, found),
        Name::RehearseArith => rehearse_arith(alloc, found),
        Name::RehearsePoly => rehearse_poly(alloc, found),
        Name::Eval => eval(alloc, found),
        Name::Deal => deal(alloc, found),
        Name::Serve => serve(alloc, found),
        Name::ServeMany => serve_many(alloc, found),
        Name::ServeArith => serve_arith(alloc, found),
        Name::ServePoly => serve_poly(alloc, found),
        Name::Prove => prove(alloc, found),
        Name::ProveArith => prove_arith(alloc, found),
        Name::ProvePoly => prove_poly(alloc, found),
        Name::Audit => audit(alloc, found),
        Name::AuditArith => audit_arith(alloc, found),
        Name::Migrate => migrate(alloc, found),
        Name::Status => status(alloc, found),
        Name::Node => node(alloc, found),
        Name::Broker => broker(alloc, found),
        Name::ServeNode => serve_node(alloc, found),
    }
}
