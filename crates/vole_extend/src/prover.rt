// The prover's end of a round.
ghost use Rattle.std.specs.Prelude.{◌≡◌, ◌*◌, ◌+◌, ◌^◌, ◌<◌, ◌≤◌, length, All, IfOk, vec_len};
ghost use Rattle.zk_model.specs.Field.{◌-ₚ◌};
ghost use Rattle.zk_model.specs.Files.{IsProverFile, AreWithinLimits, prover_unit};
ghost use Rattle.zk_model.specs.Transcript.{IsTreeAsk, IsTreeReply};
ghost use Rattle.zk_model.specs.Correlations.{IsNoiseOf, IsExtension};
ghost use Rattle.zk_model.specs.HonestProver.{place_coin, noise_coin, honest_asks};
ghost use Rattle.zk_model.specs.declared.Kind.TheVariants.{Extended};
ghost use Rattle.vole_extend.specs.Rounds.{unit_code, tree_transfers, tree_base, tree_ask, asked_view, asked_round, IsNoiseOfTrees};
ghost use Rattle.zk_model.specs.declared.limits.TheConstants.{MAX_DEALT_UNITS};

use crate::levels::{asked_flips, chosen_sums};
use dealer_files::{ProverFile, Transfer};
use ggm_tree::puncture;
use linear_code::Columns;
use mersenne_field::{Fe, Pair};
use sparse_vole::{prover_ask, prover_finish};
use std::alloc::{AllocError, Global};
use std::marker::Model;
use tree_messages::{TreeAsk, TreeReply};
use zk_model::{Params, Span};

/// A prover's round over a unit of an extended file. What it asks hides in each tree a place and a value, which its
/// coins choose, so the same unit always asks the same.
#[derive(Debug, Drop)]
pub struct ProverRound<'a> {
    file: &'a ProverFile,
    unit: u64,
}

impl<'a> Model for ProverRound<'a> {
    ghost use Rattle.vole_extend.specs.Rounds as rounds;

    ghost Value = { rounds.ProverTurn };

    ghost view = { λ r. record { file = r.file.now; unit = r.unit } };

    ghost invariant = { λ r. rounds.IsExtendedUnit r.file.now.params r.unit };
}

/// What hides in a tree: the place of the leaf that the prover does not learn, and the value there.
#[derive(Clone, Copy, Debug)]
struct Hidden {
    place: u32,
    noise: Fe,
}

impl<'a> ProverRound<'a> {
    /// The round over a unit.
    pub fn new(file: &'a ProverFile, unit: u64) -> Self
        requires extended { file.now.params.kind ≡ Extended }
        requires within { unit < file.now.params.total }
        ensures { result ≡ record { file = file.now; unit = unit } }
    {
        ProverRound { file, unit }
    }

    /// The asks for all trees of the unit, in order.
    ///
    /// # Errors
    ///
    /// Only where memory runs out.
    pub fn ask(&self, alloc: Global) -> Result<Vec<TreeAsk>, AllocError>
        ensures asks { IfOk result (λ asks. asks.items ≡ honest_asks self.now.file self.now.unit) }
        ensures fits { IfOk result (λ asks. All (IsTreeAsk self.now.file.params.height) asks.items) }
        ensures count { IfOk result (λ asks. vec_len asks ≡ self.now.file.params.trees) }
    {
        let trees = self.params().trees;
        let mut asks = Vec::with_capacity(alloc, trees as usize)?;
        for tree in 0..trees {
            asks.push(self.ask_tree(alloc, tree)?)?;
        }
        Ok(asks)
    }

    /// The pairs of the unit, from the replies for all its trees, in order: one for each leaf.
    ///
    /// # Errors
    ///
    /// Only where memory runs out.
    pub fn finish(
        &self,
        alloc: Global,
        columns: &Columns,
        replies: &[TreeReply],
    ) -> Result<Vec<Pair>, AllocError>
        requires columns { columns.now ≡ unit_code self.now.file.params self.now.file.code_seed }
        requires count { length replies.now ≡ self.now.file.params.trees }
        requires fits { All (IsTreeReply self.now.file.params.height) replies.now }
        ensures pairs { IfOk result (λ pairs. IsExtension self.now.file.params self.now.file.code_seed
            (prover_unit self.now.file self.now.unit) (asked_round self.now replies.now) pairs.items) }
        ensures count { IfOk result (λ pairs. vec_len pairs
            ≡ self.now.file.params.trees * 2 ^ self.now.file.params.height) }
    {
        let noise = self.noise(alloc, replies)?;
        let base = self.params().base as usize;
        let pairs = columns.apply_pairs(alloc, &self.pairs()[..base], &noise)?;
        Ok(pairs)
    }

    /// What the file was made for.
    fn params(&self) -> Params
        ensures params { result ≡ self.now.file.params }
        ensures extended { AreWithinLimits Extended result }
        ensures within { self.now.unit < result.total }
        ensures bounded { result.total ≤ MAX_DEALT_UNITS }
        ensures file { IsProverFile self.now.file }
    {
        self.file.params()
    }

    /// The pairs that were dealt in the unit.
    fn pairs(&self) -> &'a [Pair]
        ensures pairs { result.now ≡ (prover_unit self.now.file self.now.unit).pairs }
        ensures count { length result.now ≡ self.now.file.params.base + self.now.file.params.trees }
    {
        let _params = self.params();
        self.file.pairs(Span {
            start: self.unit,
            end: self.unit + 1,
        })
    }

    /// The pair that serves a tree.
    fn base_pair(&self, tree: u32) -> Pair
        requires { tree < self.now.file.params.trees }
        ensures { result ≡ tree_base self.now tree }
    {
        let base = self.params().base as usize;
        self.pairs()[base + tree as usize]
    }

    /// The transfers of a tree, level by level.
    fn transfers(&self, tree: u32) -> &'a [Transfer]
        requires { tree < self.now.file.params.trees }
        ensures transfers { result.now ≡ tree_transfers self.now tree }
        ensures count { length result.now ≡ self.now.file.params.height }
    {
        let height = usize::from(self.params().height);
        let start = tree as usize * height;
        &self.file.transfers(self.unit)[start..start + height]
    }

    /// What the coins hide in a tree.
    fn hidden(&self, tree: u32) -> Hidden
        requires { tree < self.now.file.params.trees }
        ensures place { result.place ≡ place_coin self.now.file self.now.unit tree }
        ensures inside { result.place < 2 ^ self.now.file.params.height }
        ensures noise { result.noise ≡ noise_coin self.now.file self.now.unit tree }
    {
        let leaves = 1 << u32::from(self.params().height);
        let coins = self.file.coins();
        let stream = 4 * self.unit + 2;
        let first = 2 * u64::from(tree);
        Hidden {
            place: (coins.word(stream, first) % leaves) as u32,
            noise: Fe::from_word(coins.word(stream, first + 1)),
        }
    }

    /// The ask for a tree.
    fn ask_tree(&self, alloc: Global, tree: u32) -> Result<TreeAsk, AllocError>
        requires { tree < self.now.file.params.trees }
        ensures { IfOk result (λ ask. ask ≡ tree_ask self.now tree) }
    {
        let _params = self.params();
        let hidden = self.hidden(tree);
        let flips = asked_flips(alloc, hidden.place, self.transfers(tree))?;
        let base_correction = prover_ask(hidden.noise, self.base_pair(tree).x);
        Ok(TreeAsk {
            flips,
            base_correction,
        })
    }

    /// The noise of all trees, one tree after another.
    fn noise(&self, alloc: Global, replies: &[TreeReply]) -> Result<Vec<Pair>, AllocError>
        requires count { length replies.now ≡ self.now.file.params.trees }
        requires fits { All (IsTreeReply self.now.file.params.height) replies.now }
        ensures noise { IfOk result (λ noise. IsNoiseOfTrees self.now replies.now
            self.now.file.params.trees noise.items) }
        ensures count { IfOk result (λ noise. vec_len noise
            ≡ self.now.file.params.trees * 2 ^ self.now.file.params.height) }
    {
        let Params { height, trees, .. } = self.params();
        let mut noise = Vec::with_capacity(alloc, (trees as usize) << u32::from(height))?;
        for tree in 0..trees {
            let entries = self.tree_noise(alloc, tree, &replies[tree as usize])?;
            noise.extend_from_slice(&entries)?;
        }
        Ok(noise)
    }

    /// The noise of a tree: the prover grows it without the hidden leaf.
    fn tree_noise(
        &self,
        alloc: Global,
        tree: u32,
        reply: &TreeReply,
    ) -> Result<Vec<Pair>, AllocError>
        requires tree { tree < self.now.file.params.trees }
        requires fits { IsTreeReply self.now.file.params.height reply.now }
        ensures noise { IfOk result (λ entries.
            IsNoiseOf (asked_view self.now tree reply.now) entries.items) }
        ensures count { IfOk result (λ entries. vec_len entries ≡ 2 ^ self.now.file.params.height) }
    {
        let height = u32::from(self.params().height);
        let Hidden { place, noise } = self.hidden(tree);
        let sums = chosen_sums(alloc, place, self.transfers(tree), &reply.messages)?;
        let leaves = puncture(alloc, height, place as usize, &sums)?;
        let base_mac = self.base_pair(tree).m;
        let entries = prover_finish(alloc, place, noise, base_mac, reply.leaf_offset, &leaves)?;
        Ok(entries)
    }
}
