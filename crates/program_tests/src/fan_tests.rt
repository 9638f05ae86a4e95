// The rounds of all units of an extended file, by one worker and by more.
ghost use Rattle.std.specs.Prelude.{◌≡◌, ◌<◌, ◌≤◌, length, All, IfOk};
ghost use Rattle.zk_model.specs.Files.{AreDealt};
ghost use Rattle.zk_model.specs.Frames.{AreAsks, AreReplies};
ghost use Rattle.zk_model.specs.declared.Kind.TheVariants.{Extended};
ghost use Rattle.vole_extend.specs.Rounds.{unit_code};
ghost use Rattle.round_fan.specs.Fans.{lists_of};

use dealer_files::{ProverFile, VerifierFile, deal};
use linear_code::Columns;
use round_fan::{fan_prover, fan_verifier};
use std::alloc::{AllocError, Global};
use std::test::Fail;
use std::thread::Threads;
use tree_messages::{TreeAsk, TreeReply};
use vole_extend::{ProverRound, VerifierRound, columns_of};
use zk_model::{Kind, Params, Span};

/// How many workers there are.
const WORKERS: [u32; 5] = [1, 2, 3, 4, 16];

/// Seven units of eight correlations each.
const PARAMS: Params = Params {
    kind: Kind::Extended,
    height: 2,
    trees: 2,
    base: 10,
    total: 7,
};

/// What a prover asks for the trees of each unit.
fn asks_of(alloc: Global, file: &ProverFile) -> Result<Vec<Vec<TreeAsk>>, AllocError>
    requires { file.now.params.kind ≡ Extended }
    ensures count { IfOk result (λ asks. length asks.items ≡ file.now.params.total) }
    ensures fits { IfOk result (λ asks.
        All (AreAsks file.now.params.height file.now.params.trees) (lists_of asks.items)) }
{
    let mut asks = Vec::new(alloc);
    for unit in 0..file.total() {
        let trees = ProverRound::new(file, unit).ask(alloc)?;
        asks.push(trees)?;
    }
    Ok(asks)
}

/// What a verifier replies to the asks for a unit.
fn unit_replies(
    alloc: Global,
    file: &VerifierFile,
    columns: &Columns,
    unit: u64,
    asks: &[TreeAsk],
) -> Result<Vec<TreeReply>, AllocError>
    requires extended { file.now.params.kind ≡ Extended }
    requires columns { columns.now ≡ unit_code file.now.params file.now.code_seed }
    requires within { unit < file.now.params.total }
    requires fits { AreAsks file.now.params.height file.now.params.trees asks.now }
    ensures { IfOk result (λ replies.
        AreReplies file.now.params.height file.now.params.trees replies.items) }
{
    let reply = VerifierRound::new(file, unit).reply(alloc, columns, asks)?;
    Ok(reply.replies)
}

/// What it replies to those for each unit.
fn replies_to(
    alloc: Global,
    file: &VerifierFile,
    columns: &Columns,
    asks: &[Vec<TreeAsk>],
) -> Result<Vec<Vec<TreeReply>>, AllocError>
    requires extended { file.now.params.kind ≡ Extended }
    requires columns { columns.now ≡ unit_code file.now.params file.now.code_seed }
    requires within { length asks.now ≤ file.now.params.total }
    requires fits { All (AreAsks file.now.params.height file.now.params.trees) (lists_of asks.now) }
    ensures count { IfOk result (λ replies. length replies.items ≡ length asks.now) }
    ensures fits { IfOk result (λ replies.
        All (AreReplies file.now.params.height file.now.params.trees) (lists_of replies.items)) }
{
    let mut replies = Vec::new(alloc);
    for (unit, trees) in asks.iter().enumerate() {
        let more = unit_replies(alloc, file, columns, unit as u64, trees)?;
        replies.push(more)?;
    }
    Ok(replies)
}

/// All units of a file.
fn all_units(total: u64) -> Span
    ensures { result ≡ record { start = 0; end = total } }
{
    Span {
        start: 0,
        end: total,
    }
}

/// What the rounds of all units give at both ends, by each number of workers: the verifier's replies and keys, and the prover's pairs.
fn all_rounds<R: Threads + Sync>(
    rt: &R,
    alloc: Global,
    prover: &ProverFile,
    verifier: &VerifierFile,
    columns: &Columns,
    asks: &[Vec<TreeAsk>],
    replies: &[Vec<TreeReply>],
) -> Result<Vec<String>, Fail>
    requires prover { prover.now.params.kind ≡ Extended }
    requires verifier { verifier.now.params.kind ≡ Extended }
    requires prover_columns { columns.now ≡ unit_code prover.now.params prover.now.code_seed }
    requires verifier_columns { columns.now ≡ unit_code verifier.now.params verifier.now.code_seed }
    requires asked { length asks.now ≡ verifier.now.params.total }
    requires replied { length replies.now ≡ prover.now.params.total }
    requires asks { All (AreAsks verifier.now.params.height verifier.now.params.trees) (lists_of asks.now) }
    requires replies { All (AreReplies prover.now.params.height prover.now.params.trees)
        (lists_of replies.now) }
{
    let asked = all_units(verifier.total());
    let replied = all_units(prover.total());
    let mut said = Vec::new(alloc);
    for workers in WORKERS {
        let given = fan_verifier(rt, alloc, verifier, columns, asked, asks, workers)?;
        let pairs = fan_prover(rt, alloc, prover, columns, replied, replies, workers)?;
        said.push(format!(in alloc; "{given:?} {pairs:?}")?)?;
    }
    Ok(said)
}

#[test]
fn rounds_are_the_same_by_all_workers(rt: HostRuntime) -> Result<(), Fail> {
    let alloc = rt.alloc();
    let (prover, verifier) = deal(alloc, &PARAMS, &[7; 32])?;
    let columns = columns_of(alloc, &PARAMS, &verifier.code_seed())?;
    let asks = asks_of(alloc, &prover)?;
    let replies = replies_to(alloc, &verifier, &columns, &asks)?;
    let said = all_rounds(&rt, alloc, &prover, &verifier, &columns, &asks, &replies)?;
    let [alone, others @ ..] = said.as_slice() else {
        return Err(Fail::new("nobody worked"));
    };
    for other in others {
        assert_eq!(rt; other, alone);
    }
    Ok(())
}
