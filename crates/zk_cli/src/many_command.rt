// `serve-many ADDRESS FILE STATEMENTS --sessions N [--workers W] [--section G] [--timeout S] [--logs PREFIX] [--follow]`
ghost use Rattle.std.specs.Prelude.{◌≡◌, false, IfOk, IfErr, OnOk, map, string_bytes};
ghost use Rattle.zk_port.specs.Changes.{change};
ghost use Rattle.command_words.specs.Commands.{AreServeLimits, named_options, serve_many_of};
ghost use Rattle.command_words.specs.declared.asks.Ask.TheVariants.{ServeMany as serve_many};
ghost use Rattle.statement_file.specs.Claims.{NamesClaims};
ghost use Rattle.claim_files.specs.declared.claim_names.ClaimNames.TheVariants as names;
ghost use Rattle.file_commands.specs.Journals.{IsJournalDisk, disk_change};
ghost use Rattle.file_commands.specs.Effects.{OnlyLoads, IsName, effects};
ghost use Rattle.file_commands.specs.Stops.{HasText};
ghost use Rattle.zk_cli.specs.ManyRuns.{NamesService, ServesMany, StatementsStop};
ghost use Rattle.zk_cli.specs.ServedNotes.{GrantsOnceIn, ShowsClaims};

use crate::finish::{Finish, Ports};
use crate::serve_command::run_service;
use claim_files::ClaimNames;
use command_words::ServeManyAsk;
use file_commands::{Refusal, load_file, say_stop};
use statement_file::{NamedClaim, StatementError, StatementFault, read_statements};
use std::alloc::{AllocError, Global};
use std::sync::Wait;
use std::thread::Threads;
use zk_port::{Disk, Door, Shelf, Sink};

/// The claims that the file of statements names.
fn load_statements<F: Shelf>(
    alloc: Global,
    shelf: &mut F,
    ask: &ServeManyAsk<String>,
) -> Result<Vec<NamedClaim>, Refusal>
    ensures claims { IfOk result (λ claims. HasText (F.state shelf.old).told (string_bytes ask.now.statements)
        (λ text. NamesClaims text claims.items)) }
    ensures stop { IfErr result (StatementsStop (serve_many_of ask.now)
        (change (F.state shelf.old) (F.state shelf.new))) }
    ensures kept { OnlyLoads (IsName (string_bytes ask.now.statements))
        (change (F.state shelf.old) (F.state shelf.new)) }
    ensures quiet { OnOk result (F.state shelf.new ≡ F.state shelf.old) }
{
    let text = load_file(alloc, shelf, &ask.statements)?;
    match read_statements(alloc, &text) {
        Ok(claims) => Ok(claims),
        Err(StatementError::Fault(StatementFault::BadLine { line })) => {
            Err(Refusal::StatementLine { line })
        }
        Err(StatementError::Fault(StatementFault::Count { lines })) => {
            Err(Refusal::StatementCount { lines })
        }
        Err(StatementError::NoMemory) => Err(Refusal::NoMemory),
    }
}

/// The claims, among those of either kind.
fn boolean_claims(alloc: Global, claims: Vec<NamedClaim>) -> Result<Vec<ClaimNames>, AllocError>
    ensures { IfOk result (λ named. named.items ≡ map names.Boolean claims.items) }
{
    claims
        .into_iter()
        .map(|claim| ClaimNames::Boolean(claim))
        .collect(alloc)
}

/// The claims that the file of statements names, among those of either kind.
fn load_claims<F: Shelf>(
    alloc: Global,
    shelf: &mut F,
    ask: &ServeManyAsk<String>,
) -> Result<Vec<ClaimNames>, Refusal>
    ensures claims { IfOk result (λ named. NamesService (F.state shelf.old).told
        (serve_many_of ask.now) named.items) }
    ensures stop { IfErr result (StatementsStop (serve_many_of ask.now)
        (change (F.state shelf.old) (F.state shelf.new))) }
    ensures kept { OnlyLoads (IsName (string_bytes ask.now.statements))
        (change (F.state shelf.old) (F.state shelf.new)) }
    ensures quiet { OnOk result (F.state shelf.new ≡ F.state shelf.old) }
{
    let claims = load_statements(alloc, shelf, ask)?;
    Ok(boolean_claims(alloc, claims)?)
}

/// `serve-many ADDRESS FILE STATEMENTS --sessions N [--workers W] [--section G] [--timeout S] [--logs PREFIX] [--follow]`: serves sessions about the
/// claims that the file of statements names, or says why none is served; with the status.
pub fn run_serve_many<R, F, D, B, O, E>(
    rt: &R,
    alloc: Global,
    shelf: &mut F,
    ports: Ports<B, D>,
    out: &mut O,
    notices: &mut E,
    ask: ServeManyAsk<String>,
) -> Finish<B, D>
where
    R: Threads + Wait + Sync,
    F: Shelf + Send,
    D: Door + Drop + Send,
    D::Link: Drop + Send,
    B: Disk + Drop + Send,
    O: Sink,
    E: Sink + Send,
    requires disk { IsJournalDisk (B.state ports.journal) }
    requires limits { AreServeLimits (named_options ask.options) }
    ensures serves { ServesMany D.Link.state (serve_many_of ask) result.part
        (disk_change (B.state ports.journal) (B.state result.journal))
        (change (D.state ports.door) (D.state result.door))
        (effects result.status
        (change (F.state shelf.old) (F.state shelf.new)) (change (O.state out.old) (O.state out.new))) }
    ensures headline { ShowsClaims (F.state shelf.old).told (serve_many (serve_many_of ask)) result.part }
    ensures once { GrantsOnceIn B.state (F.state shelf.old).told (serve_many (serve_many_of ask))
        result.part (change ports.journal result.journal) }
    ensures quiet { ask.options.follow ≡ false → E.state notices.new ≡ E.state notices.old }
{
    let claims = match load_claims(alloc, shelf, &ask) {
        Ok(claims) => claims,
        Err(stop) => return ports.end(say_stop(alloc, out, stop)),
    };
    let service = ServeManyAsk {
        address: ask.address,
        file: ask.file,
        statements: claims.as_slice(),
        options: ask.options,
    };
    run_service(rt, alloc, shelf, ports, out, notices, &service)
}
