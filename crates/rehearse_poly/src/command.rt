// `rehearse-poly TEXT VALUES [--section G] [--extended]`
ghost use Rattle.std.specs.Prelude.{◌≤◌};
ghost use Rattle.zk_model.specs.declared.limits.TheConstants.{MAX_SECTION_LENGTH};
ghost use Rattle.zk_port.specs.Changes.{change};
ghost use Rattle.command_words.specs.Commands.{rehearse_poly_of};
ghost use Rattle.file_commands.specs.Effects.{effects};
ghost use Rattle.rehearse_poly.specs.PolyRuns.{RehearsesPoly};

use crate::rehearsing::rehearse_files;
use crate::saying::say_rehearsal;
use claim_rehearsal::ClaimRehearsal;
use command_words::RehearsePolyAsk;
use element_file::elements_are_exact;
use file_commands::say_stop;
use poly_text::texts_are_exact;
use std::alloc::Global;
use std::thread::Threads;
use zk_port::{Shelf, Sink};

/// How the command ends: its status, and the rehearsal, exactly where its lines were written or were to be.
#[derive(Drop)]
pub struct RehearsePolyEnd {
    pub status: u8,
    pub rehearsal: Option<ClaimRehearsal>,
}

/// `rehearse-poly TEXT VALUES [--section G] [--extended]`: rehearses a session over the constraints of this name at the values of that file, says
/// what came of it and hands it back, or says why there is no rehearsal; with the status.
pub fn run_rehearse_poly<R: Threads + Sync, F: Shelf, O: Sink>(
    rt: &R,
    alloc: Global,
    shelf: &mut F,
    out: &mut O,
    ask: &RehearsePolyAsk<String>,
    seed: &[u8; 32],
) -> RehearsePolyEnd
    requires at_least_one { 1 ≤ ask.now.section }
    requires at_most { ask.now.section ≤ MAX_SECTION_LENGTH }
    ensures rehearses { RehearsesPoly (rehearse_poly_of ask.now) seed.now result.rehearsal
        (effects result.status (change (F.state shelf.old) (F.state shelf.new))
        (change (O.state out.old) (O.state out.new))) }
{
    texts_are_exact();
    elements_are_exact();
    match rehearse_files(rt, alloc, shelf, ask, seed) {
        Ok(made) => RehearsePolyEnd {
            status: say_rehearsal(alloc, out, &made),
            rehearsal: Some(made.rehearsal),
        },
        Err(stop) => RehearsePolyEnd {
            status: say_stop(alloc, out, stop),
            rehearsal: None,
        },
    }
}
