// The verifier's end of a round.
ghost use Rattle.std.specs.Prelude.{◌≡◌, ◌*◌, ◌+◌, ◌%◌, ◌^◌, ◌<◌, ◌≤◌, length, sum, All, IfOk, vec_len};
ghost use Rattle.zk_model.specs.Field.{prime};
ghost use Rattle.zk_model.specs.Files.{IsVerifierFile, AreWithinLimits, verifier_unit};
ghost use Rattle.zk_model.specs.Tree.{tree_leaves};
ghost use Rattle.zk_model.specs.Transcript.{IsTreeAsk, IsTreeReply};
ghost use Rattle.zk_model.specs.Correlations.{tree_root, unit_keys};
ghost use Rattle.zk_model.specs.Replies.{tree_base_key, tree_reply, unit_reply};
ghost use Rattle.zk_model.specs.declared.Kind.TheVariants.{Extended};
ghost use Rattle.ggm_tree.specs.Sums.{tree_sums};
ghost use Rattle.vole_extend.specs.Rounds.{unit_code, tree_pads, first_replies, first_leaves};
ghost use Rattle.zk_model.specs.declared.limits.TheConstants.{MAX_DEALT_UNITS};

use crate::levels::masked_sums;
use dealer_files::VerifierFile;
use ggm_tree::{GrownTree, grow};
use linear_code::Columns;
use mersenne_field::Fe;
use sparse_vole::{sum_of_leaves, verifier_reply_sum};
use std::alloc::{AllocError, Global};
use std::marker::Model;
use tree_messages::{TreeAsk, TreeReply};
use zk_model::{BlockPair, Params, Span};

/// A verifier's round over a unit of an extended file.
#[derive(Debug, Drop)]
pub struct VerifierRound<'a> {
    file: &'a VerifierFile,
    unit: u64,
}

impl<'a> Model for VerifierRound<'a> {
    ghost use Rattle.vole_extend.specs.Rounds as rounds;

    ghost Value = { rounds.VerifierTurn };

    ghost view = { λ r. record { file = r.file.now; unit = r.unit } };

    ghost invariant = { λ r. rounds.IsExtendedUnit r.file.now.params r.unit };
}

/// What the verifier has of a round: the replies for all trees of the unit, in order, and the unit's keys, one for each
/// leaf.
#[derive(Debug, Drop)]
pub struct UnitReply {
    pub replies: Vec<TreeReply>,
    pub keys: Vec<Fe>,
}

/// The replies for all trees, and their leaves, one tree after another.
#[derive(Drop)]
struct Replied {
    replies: Vec<TreeReply>,
    leaves: Vec<Fe>,
}

impl<'a> VerifierRound<'a> {
    /// The round over a unit.
    pub fn new(file: &'a VerifierFile, unit: u64) -> Self
        requires extended { file.now.params.kind ≡ Extended }
        requires within { unit < file.now.params.total }
        ensures { result ≡ record { file = file.now; unit = unit } }
    {
        VerifierRound { file, unit }
    }

    /// The replies to the asks for all trees of the unit, and its keys. The keys are the same whatever was asked.
    ///
    /// # Errors
    ///
    /// Only where memory runs out.
    pub fn reply(
        &self,
        alloc: Global,
        columns: &Columns,
        asks: &[TreeAsk],
    ) -> Result<UnitReply, AllocError>
        requires columns { columns.now ≡ unit_code self.now.file.params self.now.file.code_seed }
        requires count { length asks.now ≡ self.now.file.params.trees }
        requires fits { All (IsTreeAsk self.now.file.params.height) asks.now }
        ensures replies { IfOk result (λ r. r.replies.items
            ≡ unit_reply self.now.file self.now.unit asks.now) }
        ensures fits { IfOk result (λ r. All (IsTreeReply self.now.file.params.height) r.replies.items) }
        ensures keys { IfOk result (λ r. r.keys.items ≡ unit_keys self.now.file self.now.unit) }
        ensures reply_count { IfOk result (λ r. vec_len r.replies ≡ self.now.file.params.trees) }
        ensures key_count { IfOk result (λ r. vec_len r.keys
            ≡ self.now.file.params.trees * 2 ^ self.now.file.params.height) }
    {
        let Replied { replies, leaves } = self.reply_trees(alloc, asks)?;
        let base = self.params().base as usize;
        let keys = columns.apply(alloc, &self.keys()[..base], &leaves)?;
        Ok(UnitReply { replies, keys })
    }

    /// What the file was made for.
    fn params(&self) -> Params
        ensures params { result ≡ self.now.file.params }
        ensures extended { AreWithinLimits Extended result }
        ensures within { self.now.unit < result.total }
        ensures bounded { result.total ≤ MAX_DEALT_UNITS }
        ensures file { IsVerifierFile self.now.file }
    {
        self.file.params()
    }

    /// The keys that were dealt in the unit.
    fn keys(&self) -> &'a [Fe]
        ensures keys { result.now ≡ (verifier_unit self.now.file self.now.unit).keys }
        ensures count { length result.now ≡ self.now.file.params.base + self.now.file.params.trees }
    {
        let _params = self.params();
        self.file.keys(Span {
            start: self.unit,
            end: self.unit + 1,
        })
    }

    /// The key of the pair that serves a tree.
    fn base_key(&self, tree: u32) -> Fe
        requires { tree < self.now.file.params.trees }
        ensures { result ≡ tree_base_key self.now.file self.now.unit tree }
    {
        let base = self.params().base as usize;
        self.keys()[base + tree as usize]
    }

    /// Both pads of a tree's transfers, level by level.
    fn pads(&self, tree: u32) -> &'a [BlockPair]
        requires { tree < self.now.file.params.trees }
        ensures pads { result.now ≡ tree_pads self.now tree }
        ensures count { length result.now ≡ self.now.file.params.height }
    {
        let height = usize::from(self.params().height);
        let start = tree as usize * height;
        &self.file.pads(self.unit)[start..start + height]
    }

    /// The replies for all trees, each grown once.
    fn reply_trees(&self, alloc: Global, asks: &[TreeAsk]) -> Result<Replied, AllocError>
        requires count { length asks.now ≡ self.now.file.params.trees }
        requires fits { All (IsTreeAsk self.now.file.params.height) asks.now }
        ensures replies { IfOk result (λ r. r.replies.items
            ≡ first_replies self.now asks.now self.now.file.params.trees) }
        ensures leaves { IfOk result (λ r. r.leaves.items
            ≡ first_leaves self.now self.now.file.params.trees) }
        ensures reply_count { IfOk result (λ r. vec_len r.replies ≡ self.now.file.params.trees) }
        ensures leaf_count { IfOk result (λ r. vec_len r.leaves
            ≡ self.now.file.params.trees * 2 ^ self.now.file.params.height) }
    {
        let Params { height, trees, .. } = self.params();
        let mut replies = Vec::with_capacity(alloc, trees as usize)?;
        let mut leaves = Vec::with_capacity(alloc, (trees as usize) << u32::from(height))?;
        for tree in 0..trees {
            let grown = self.grow_tree(alloc, tree)?;
            let leaf_sum = sum_of_leaves(&grown.leaves);
            let ask = &asks[tree as usize];
            replies.push(self.reply_tree(alloc, tree, ask, &grown.sums, leaf_sum)?)?;
            leaves.extend_from_slice(&grown.leaves)?;
        }
        Ok(Replied { replies, leaves })
    }

    /// The root of a tree, which the coins choose.
    fn root(&self, tree: u32) -> [u8; 16]
        requires { tree < self.now.file.params.trees }
        ensures { result ≡ tree_root self.now.file self.now.unit tree }
    {
        let _params = self.params();
        self.file.coins().seed16(4 * self.unit, u64::from(tree))
    }

    /// A tree of the unit, from its root.
    fn grow_tree(&self, alloc: Global, tree: u32) -> Result<GrownTree, AllocError>
        requires { tree < self.now.file.params.trees }
        ensures leaves { IfOk result (λ grown. grown.leaves.items
            ≡ tree_leaves (tree_root self.now.file self.now.unit tree) self.now.file.params.height) }
        ensures sums { IfOk result (λ grown. grown.sums.items
            ≡ tree_sums (tree_root self.now.file self.now.unit tree) self.now.file.params.height) }
        ensures leaf_count { IfOk result (λ grown. vec_len grown.leaves ≡ 2 ^ self.now.file.params.height) }
        ensures sum_count { IfOk result (λ grown. vec_len grown.sums ≡ self.now.file.params.height) }
    {
        let height = u32::from(self.params().height);
        let root = self.root(tree);
        let grown = grow(alloc, &root, height)?;
        Ok(grown)
    }

    /// The reply for a tree: the sums of its levels, masked, and the offset of its leaves, from their sum.
    fn reply_tree(
        &self,
        alloc: Global,
        tree: u32,
        ask: &TreeAsk,
        sums: &[BlockPair],
        leaf_sum: Fe,
    ) -> Result<TreeReply, AllocError>
        requires tree { tree < self.now.file.params.trees }
        requires fits { IsTreeAsk self.now.file.params.height ask.now }
        requires sums { sums.now
            ≡ tree_sums (tree_root self.now.file self.now.unit tree) self.now.file.params.height }
        requires sum_count { length sums.now ≡ self.now.file.params.height }
        requires leaf_sum { leaf_sum
            ≡ sum (tree_leaves (tree_root self.now.file self.now.unit tree)
            self.now.file.params.height) % prime }
        ensures { IfOk result (λ reply. reply ≡ tree_reply self.now.file self.now.unit tree ask.now) }
    {
        let messages = masked_sums(alloc, self.pads(tree), &ask.flips, sums)?;
        let base_key = self.base_key(tree);
        let key = self.file.key();
        let leaf_offset = verifier_reply_sum(base_key, ask.base_correction, key, leaf_sum);
        Ok(TreeReply {
            messages,
            leaf_offset,
        })
    }
}
