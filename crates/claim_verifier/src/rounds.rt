// A verifier's rounds.
ghost use Rattle.std.specs.Prelude.{◌≡◌, ◌+◌, ◌<◌, ◌≤◌, ◌++◌, ◌∷◌, ℕ, List, [], length, All, IfOk, OnOk, None, Some};
ghost use Rattle.std.specs.Thread.{IsSync};
ghost use Rattle.zk_model.specs.Frames.{AreAsks};
ghost use Rattle.zk_model.specs.Transcript.{TreeReply};
ghost use Rattle.zk_model.specs.declared.Kind.TheVariants.{Direct, Extended};
ghost use Rattle.round_fan.specs.Fans.{lists_of};
ghost use Rattle.claim_verifier.specs.Hearing.{AsksOn, asking, replying};
ghost use Rattle.claim_verifier.specs.Rounds.{AreKeysFor, IsKeyed, IsRoundOver, TakesAsks, keys_in, round_stage};

use dealer_files::VerifierFile;
use mersenne_field::Fe;
use proof_frames::Grant;
use round_fan::{SESSION_WORKERS, fan_verifier};
use session_core::units_of;
use std::alloc::{AllocError, Global};
use std::collections::VecDeque;
use std::mem;
use std::thread::Threads;
use tree_messages::{TreeAsk, TreeReply};
use vole_extend::columns_of;

/// Where a round is: the asks that came, unit by unit; or, once all came, the replies that are still to be said, and all keys.
#[derive(Debug, Drop)]
pub enum Rounds {
    Asking {
        asked: Vec<Vec<TreeAsk>>,
    },
    Replying {
        due: VecDeque<Vec<TreeReply>>,
        keys: Vec<Fe>,
    },
}

/// The asks that came, which are taken out.
fn take_asked(alloc: Global, rounds: &mut Rounds) -> Vec<Vec<TreeAsk>>
    requires { (asked : List _) × (round_stage rounds.old ≡ asking asked) }
    ensures asked { round_stage rounds.old ≡ asking (lists_of result.items) }
    ensures left { keys_in rounds.new ≡ None }
{
    match mem::replace(
        rounds,
        Rounds::Asking {
            asked: Vec::new(alloc),
        },
    ) {
        Rounds::Asking { asked } => asked,
        Rounds::Replying { .. } => unreachable!(),
    }
}

/// The replies to all asks of a grant, and all keys; none as long as asks are missing.
fn replied<R: Threads + Sync>(
    rt: &R,
    alloc: Global,
    file: &VerifierFile,
    given: Grant,
    asked: Vec<Vec<TreeAsk>>,
) -> Result<Rounds, AllocError>
    requires shared { IsSync R.row }
    requires extended { file.now.params.kind ≡ Extended }
    requires within { given.start + given.count ≤ file.now.params.total }
    requires few { length asked.items ≤ given.count }
    requires each { All (AreAsks file.now.params.height file.now.params.trees) (lists_of asked.items) }
    ensures on { IfOk result (λ rounds. AsksOn file.now given (lists_of asked.items) (round_stage rounds)) }
    ensures keyed { IfOk result (λ rounds. IsKeyed file.now (Some given) rounds) }
{
    let _total = file.total();
    if asked.len() < given.count as usize {
        return Ok(Rounds::Asking { asked });
    }
    let columns = columns_of(alloc, &file.params(), &file.code_seed())?;
    let span = units_of(given);
    let reply = fan_verifier(rt, alloc, file, &columns, span, &asked, SESSION_WORKERS)?;
    Ok(Rounds::Replying {
        due: VecDeque::from(reply.replies),
        keys: reply.keys,
    })
}

/// Notes asks more.
fn keep_asks(asked: &mut Vec<Vec<TreeAsk>>, trees: Vec<TreeAsk>) -> Result<(), AllocError>
    ensures { OnOk result (lists_of asked.new.items ≡ lists_of asked.old.items ++ trees.items ∷ []) }
{
    asked.push(trees)?;
    Ok(())
}

/// Takes the asks of one unit more; with the last, it has the replies to all and all keys.
pub(crate) fn take_asks<R: Threads + Sync>(
    rt: &R,
    alloc: Global,
    file: &VerifierFile,
    given: Grant,
    rounds: &mut Rounds,
    trees: Vec<TreeAsk>,
) -> Result<(), AllocError>
    requires shared { IsSync R.row }
    requires takes { TakesAsks file.now (Some given) (round_stage rounds.old) trees.items }
    ensures on { OnOk result ((asked : List (List _)) × (round_stage rounds.old ≡ asking asked)
        × AsksOn file.now given (asked ++ trees.items ∷ []) (round_stage rounds.new)) }
    ensures keyed { IsKeyed file.now (Some given) rounds.new }
{
    let mut asked = take_asked(alloc, rounds);
    keep_asks(&mut asked, trees)?;
    *rounds = replied(rt, alloc, file, given, asked)?;
    Ok(())
}

/// The next reply, which is taken out.
pub(crate) fn next_reply(rounds: &mut Rounds) -> Vec<TreeReply>
    requires { (said : List TreeReply) × (due : List (List TreeReply)) × (round_stage rounds.old ≡ replying (said ∷ due)) }
    ensures next { (due : List (List TreeReply)) × (round_stage rounds.old ≡ replying (result.items ∷ due))
        × (round_stage rounds.new ≡ replying due) }
    ensures keyed { (file : _) (given : _) → IsKeyed file given rounds.old → IsKeyed file given rounds.new }
{
    match rounds {
        Rounds::Replying { due, .. } => match due.pop_front() {
            Some(trees) => trees,
            None => unreachable!(),
        },
        Rounds::Asking { .. } => unreachable!(),
    }
}

/// The keys of a grant's units, once all rounds are over.
pub(crate) fn keys_of<'k>(file: &'k VerifierFile, given: Grant, rounds: &'k Rounds) -> &'k [Fe]
    requires over { IsRoundOver file.now.params.kind (round_stage rounds.now) }
    requires keyed { IsKeyed file.now (Some given) rounds.now }
    requires within { given.start + given.count ≤ file.now.params.total }
    ensures { AreKeysFor file.now given result.now }
{
    let _total = file.total();
    match rounds {
        Rounds::Replying { keys, .. } => keys,
        Rounds::Asking { .. } => file.keys(units_of(given)),
    }
}
