// What clap finds in the words of a command.
ghost use Rattle.std.specs.Option.{option_map};
ghost use Rattle.std.specs.Prelude.{◌≡◌, ◌++◌, map, IfOk, IfSome, IsNone, true, false};
ghost use Rattle.clap.specs.Simple.{app_of, is_simple};
ghost use Rattle.command_words.specs.Found.{told, flag_value, given_by, are_plain, is_plain, places_in, word_ids, IsFound};
ghost use Rattle.command_words.specs.Reading.{options_of, stands, word_in};
ghost use Rattle.command_words.specs.Rows.{column_at, ids_of, row_at};
ghost use Rattle.command_words.specs.Words.{texts};
ghost use Rattle.command_words.specs.Arguments.{begins_with_dash};

use crate::table::{Need, TableColumn, TableRow};
use clap::error::ErrorKind;
use clap::{Arg, ArgAction, ArgMatches, Command};
use std::alloc::{AllocError, Global};

/// A command that takes the words of a row.
fn clap_command<'a>(alloc: Global, row: &TableRow) -> Result<Command<'a>, AllocError>
    ensures { IfOk result (λ command. app_of command ≡ told (row_at row.entry.now)) }
{
    let mut command = Command::new(alloc, "zk").disable_help_flag(true);
    for column in row.places {
        command = command.arg(Arg::new(alloc, column.0))?;
    }
    for column in row.options {
        command = command.arg(Arg::new(alloc, column.0).long(column.0))?;
    }
    for id in row.flags {
        let flag = Arg::new(alloc, id).long(id).action(ArgAction::SetTrue);
        command = command.arg(flag)?;
    }
    Ok(command)
}

/// Whether nothing that was found under the ids of these begins with a dash.
fn are_plain(matches: &ArgMatches, columns: &[TableColumn]) -> bool
    ensures { result ≡ are_plain (given_by matches.now) (ids_of (map column_at columns.now)) }
{
    let mut rest = columns;
    while let [column, behind @ ..] = rest {
        if matches.get_str(column.0).is_some_and(|word| has_dash(word)) {
            return false;
        }
        rest = behind;
    }
    true
}

/// Whether the first byte is a dash.
fn has_dash(word: &str) -> bool
    ensures { result ≡ begins_with_dash word.now }
{
    matches!(word.as_bytes(), [b'-', ..])
}

/// The words that were found in places, in order, and what was found of options.
#[derive(Drop)]
pub struct Found<'a> {
    positional: Vec<&'a str>,
    options: ArgMatches<'a>,
}

/// Where a word stands: in the place of this index, or behind this option.
#[derive(Clone, Copy)]
pub enum At<C> {
    Place(usize),
    Behind(C),
}

impl<'a> Found<'a> {
    /// The word that stands there, or the one that stands for an option's where it is left out.
    pub fn word(&self, at: At<TableColumn>) -> Option<&'a str>
        ensures { option_map (λ w. w.now) result ≡ word_in at.entry self.now }
    {
        match at {
            At::Place(index) => self.positional.get(index).copied(),
            At::Behind(column) => match (self.options.get_str(column.0), column.2) {
                (Some(word), _) => Some(word),
                (None, Need::Default(word)) => Some(word),
                _ => None,
            },
        }
    }

    /// Whether a flag stands.
    pub fn flag(&self, id: &str) -> bool
        ensures { result ≡ stands (options_of self.now) id.now }
    {
        matches!(self.options.get_str(id), Some("true"))
    }
}

/// What clap finds in the words after the command's name, if it takes them and nothing that it finds begins with a dash.
pub fn find_words<'a>(
    alloc: Global,
    words: &'a [String],
    row: &TableRow,
) -> Result<Option<Found<'a>>, AllocError>
    ensures found { IfOk result (λ found. IsFound (row_at row.entry.now)
        (texts words.entry.now) (option_map (λ a. a.options) found)) }
    ensures positional { IfOk result (λ found. IfSome found (λ a. map (λ p. p.now) a.positional.items
        ≡ places_in (given_by a.options) (ids_of (row_at row.entry.now).places))) }
{
    let Some(options) = find_matches(alloc, words, row)? else {
        return Ok(None);
    };
    let positional = find_places(alloc, &options, row.places)?;
    Ok(Some(Found {
        positional,
        options,
    }))
}

/// The words that were found in these places.
fn find_places<'a>(
    alloc: Global,
    matches: &ArgMatches<'a>,
    places: &[TableColumn],
) -> Result<Vec<&'a str>, AllocError>
    ensures { IfOk result (λ found. map (λ p. p.now) found.items
        ≡ places_in (given_by matches.now) (ids_of (map column_at places.now))) }
{
    let mut found = Vec::new(alloc);
    let mut rest = places;
    while let [column, behind @ ..] = rest {
        if let Some(word) = matches.get_str(column.0) {
            found.push(word)?;
        }
        rest = behind;
    }
    Ok(found)
}

/// What clap finds in the words, the first of which it takes for a program's name.
fn find_matches<'a>(
    alloc: Global,
    words: &'a [String],
    row: &TableRow,
) -> Result<Option<ArgMatches<'a>>, AllocError>
    ensures { IfOk result (IsFound (row_at row.entry.now) (texts words.entry.now)) }
{
    let command = clap_command(alloc, row)?;
    match command.try_get_matches_from(words) {
        Ok(matches) => Ok(if_plain(matches, row)),
        Err(error) => match error.kind() {
            ErrorKind::OutOfMemory => Err(AllocError),
            _ => Ok(None),
        },
    }
}

/// What was found, if none of a row's words begins with a dash.
fn if_plain<'a>(matches: ArgMatches<'a>, row: &TableRow) -> Option<ArgMatches<'a>>
    ensures some { IfSome result (λ m. (m ≡ matches.entry)
        × (are_plain (given_by m) (word_ids (row_at row.entry.now)) ≡ true)) }
    ensures none { IsNone result
        → are_plain (given_by matches.entry) (word_ids (row_at row.entry.now)) ≡ false }
{
    if are_plain(&matches, row.places) && are_plain(&matches, row.options) {
        Some(matches)
    } else {
        None
    }
}
