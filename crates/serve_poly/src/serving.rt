// Sessions about constraints, with whoever calls.
ghost use Rattle.std.specs.Prelude.{◌≡◌, ◌≤◌, ◌-◌, ◌+◌, IfOk, IfErr, OnErr};
ghost use Rattle.zk_model.specs.declared.limits.TheConstants.{MAX_UNITS};
ghost use Rattle.zk_port.specs.Changes.{change};
ghost use Rattle.session_claim.specs.Claims.{claim_needs};
ghost use Rattle.session_verifier.specs.ServiceLogs.{TriesLogs};
ghost use Rattle.claim_verifier.specs.Hearing.{units_of};
ghost use Rattle.command_words.specs.Commands.{AreServeLimits, named_options, serve_poly_of};
ghost use Rattle.file_commands.specs.Effects.{OnlyLoads};
ghost use Rattle.file_commands.specs.Journals.{IsJournalDisk, disk_change};
ghost use Rattle.serve_poly.specs.PolyServices.{IsLoadedName, LeadsPoly, ServePolyStop};

use crate::files::{ServedFiles, load_files};
use claim_service::ClaimSessions;
use command_words::ServePolyAsk;
use dealer_files::VerifierFile;
use file_commands::Refusal;
use poly_session::PolyClaim;
use session_claim::Claim;
use session_core::units_for;
use session_service::{LedSessions, ServicePlace, Unled, serve_sessions};
use std::alloc::Global;
use std::sync::Wait;
use std::thread::Threads;
use zk_model::MAX_UNITS;
use zk_port::{Disk, Door, Shelf, Sink};

/// How many units a session about a claim takes; or that they are too many.
fn fit_units<C: Claim>(claim: &C, file: &VerifierFile, section: u32) -> Result<u64, Refusal>
    requires some { 1 ≤ section }
    ensures units { IfOk result (λ units. units ≡ units_of (C.claim claim.now) file.now section) }
    ensures few { IfOk result (λ units. units ≤ MAX_UNITS) }
    ensures least { IfOk result (λ units. 1 ≤ units) }
    ensures stop { IfErr result (Rattle.serve_poly.specs.PolyServices.TakesTooMany (C.claim claim.now) file.now section) }
{
    let need = claim.need(section);
    let units = units_for(&file.params(), need);
    if units > MAX_UNITS {
        return Err(Refusal::TooLarge { need, units });
    }
    Ok(units)
}

/// Loads what is named, opens the file's journal, listens, and leads sessions about the constraints with the peers that call; or says why not.
pub(crate) fn serve_files<R, F, E, D, B>(
    rt: &R,
    alloc: Global,
    shelf: &mut F,
    notices: &mut E,
    ask: &ServePolyAsk<String>,
    journal: B,
    door: D,
) -> Result<LedSessions<B, D>, Unled<B, D>>
where
    R: Threads + Wait + Sync,
    F: Shelf + Send,
    E: Sink + Send,
    D: Door + Drop + Send,
    D::Link: Drop + Send,
    B: Disk + Drop + Send,
    requires disk { IsJournalDisk (B.state journal) }
    requires limits { AreServeLimits (named_options ask.now.options) }
    ensures leads { IfOk result (λ led. LeadsPoly D.Link.state (serve_poly_of ask.now)
        led.served.notes.items led.served.door_failed led.served.memory_failed (F.state shelf.old).told
        (disk_change (B.state journal) (B.state led.served.disk))
        (change (D.state door) (D.state led.served.door))) }
    ensures tried { IfOk result (λ led. TriesLogs (serve_poly_of ask.now).options.logs
        (change (F.state shelf.old) (F.state shelf.new)) led.faults.failed) }
    ensures stop { IfErr result (λ unled. ServePolyStop (serve_poly_of ask.now)
        (change (F.state shelf.old) (F.state shelf.new))
        (disk_change (B.state journal) (B.state unled.journal))
        (change (D.state door) (D.state unled.door)) unled.refusal) }
    ensures kept { OnErr result (OnlyLoads (IsLoadedName (serve_poly_of ask.now))
        (change (F.state shelf.old) (F.state shelf.new))) }
{
    let ServedFiles { constraints, file } = match load_files(alloc, shelf, ask) {
        Ok(files) => files,
        Err(refusal) => {
            return Err(Unled {
                refusal,
                journal,
                door,
            });
        }
    };
    let claim = PolyClaim::new(&constraints.polys, constraints.digest);
    let section = ask.options.section;
    let units = match fit_units(&claim, &file, section) {
        Ok(units) => units,
        Err(refusal) => {
            return Err(Unled {
                refusal,
                journal,
                door,
            });
        }
    };
    let sessions = ClaimSessions::new(&claim, &file, section);
    let place = ServicePlace {
        address: &ask.address,
        file: &ask.file,
        options: &ask.options,
    };
    serve_sessions(
        rt, alloc, shelf, notices, &sessions, &file, units, &place, journal, door,
    )
}
