// A whole session of an end that goes by its script.
ghost use Rattle.std.specs.Prelude.{◌≡◌, ◌^◌, ◌≤◌, [], None, IsTrue};
ghost use Rattle.std.specs.Thread.{IsSync};
ghost use Rattle.frame_link.specs.Lines.{snapshot_of};
ghost use Rattle.zk_model.specs.declared.Side.TheVariants.{Verifier};
ghost use Rattle.session_driver.specs.Runs.{IsFresh};
ghost use Rattle.session_script.specs.Scripts.{EndsAccepted, EndsSo, Says, ScriptLeaves, Reached, own_of, stage_of, weight};

use crate::fault::EndFault;
use crate::scripted::Scripted;
use crate::voice::Voice;
use frame_link::Line;
use session_driver::{Outcome, run};
use std::alloc::Global;
use std::thread::Threads;
use zk_port::Link;

/// Leads an end over a line, from its greeting on, whatever comes, until no place of its script is left or something stops it. The
/// log of a session that ends accepted is of no other run of a verifier's end than one that said so.
pub fn lead<R: Threads + Sync, O, V: Voice<O>, L: Link>(
    rt: &R,
    alloc: Global,
    end: &mut Scripted<V>,
    asked: &mut O,
    line: &mut Line<L>,
) -> Outcome<EndFault<V::Fault>>
    requires shared { IsSync R.row }
    requires fresh { IsFresh line.old }
    requires side { line.old.side ≡ V.side }
    requires reached { Reached (V.rules (V.task end.old.voice)) (stage_of (V.known end.old.voice asked.old) end.old.left.items) }
    requires own { Says V.side (V.greeting (V.task end.old.voice)) }
    requires waits { own_of V.side end.old.left.items ≡ None }
    requires few { weight end.old.left.items ≤ 2 ^ 32 }
    ensures leaves { ScriptLeaves (V.rules (V.task end.old.voice)) V.side (V.greeting (V.task end.old.voice))
        (stage_of (V.known end.old.voice asked.old) end.old.left.items) (V.known end.new.voice asked.new) result
        (snapshot_of line.old) (snapshot_of line.new) }
    ensures exact { V.side ≡ Verifier → V.greeting (V.task end.old.voice) ≡ [] → end.old.left.items ≡ (V.rules (V.task end.old.voice)).places
        → EndsAccepted (V.rules (V.task end.old.voice)).behind (V.rules (V.task end.old.voice)).places line.new.log
        → EndsSo (V.rules (V.task end.old.voice)) result (V.known end.new.voice asked.new) }
    ensures task { V.task end.new.voice ≡ V.task end.old.voice }
    ensures side { line.new.side ≡ line.old.side }
    ensures open_still { IsTrue line.new.is_open }
{
    run(rt, alloc, end, asked, line)
}
