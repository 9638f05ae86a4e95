// What several threads can share at either end: the rounds of all units of a grant. The sums of products are made on one.
ghost use Rattle.std.specs.Prelude.{◌≡◌, ◌+◌, ◌*◌, ◌≤◌, length, All, IfOk, IfErr, OnOk};
ghost use Rattle.std.specs.Thread.{IsSync};
ghost use Rattle.zk_model.specs.Check.{AllSectionsHold, all_sums};
ghost use Rattle.zk_model.specs.Correlations.{span_keys};
ghost use Rattle.zk_model.specs.Files.{correlations_per_unit};
ghost use Rattle.zk_model.specs.Frames.{AreAsks, AreReplies};
ghost use Rattle.zk_model.specs.Program.{section_count};
ghost use Rattle.zk_model.specs.declared.Kind.TheVariants.{Extended};
ghost use Rattle.mult_check.specs.Checks.{SectionDiffersFirst, sent_check};
ghost use Rattle.mult_check.specs.declared.fault.StreamFault.TheVariants as stream;
ghost use Rattle.mult_check.specs.declared.sections.Differs.{Differs};
ghost use Rattle.vole_extend.specs.Rounds.{unit_code};
ghost use Rattle.round_fan.specs.Fans.{lists_of, ArePairsFrom, replies_from};

use dealer_files::{ProverFile, VerifierFile};
use linear_code::Columns;
use mersenne_field::{Fe, Pair};
use mult_check::{SentSums, StreamFault, check_along, sums_along};
use round_fan::{FanReply, fan_prover, fan_verifier, unit_pairs, unit_replies};
use std::alloc::{AllocError, Global};
use std::thread::Threads;
use tree_messages::{TreeAsk, TreeReply};
use wire_auth::{ProverWalk, VerifierWalk};
use zk_model::Span;

/// What does the rounds of all units of a span, the prover's pairs and the verifier's replies and keys, and the sums of products along
/// a walk. What comes out is the same whoever does it. Sums are made on the caller's own thread, as the walk gives products: the
/// walk takes longer than they do.
pub trait Workers {
    /// What a call needs besides: nothing on one thread, and of many that they may share what makes them.
    ghost is_ready: { Self → Type 0 };

    /// The prover's pairs, from the replies for the trees of each unit.
    fn pairs(
        &self,
        alloc: Global,
        file: &ProverFile,
        columns: &Columns,
        span: Span,
        replies: &[Vec<TreeReply>],
    ) -> Result<Vec<Pair>, AllocError>
        requires ready { Self.is_ready self.now }
        requires extended { file.now.params.kind ≡ Extended }
        requires units { span.end ≡ span.start + length replies.now }
        requires within { span.end ≤ file.now.params.total }
        requires columns { columns.now ≡ unit_code file.now.params file.now.code_seed }
        requires fits { All (AreReplies file.now.params.height file.now.params.trees)
            (lists_of replies.now) }
        ensures pairs { IfOk result (λ pairs.
            ArePairsFrom file.now span.start (lists_of replies.now) pairs.items) }
        ensures count { IfOk result (λ pairs. length pairs.items
            ≡ length replies.now * correlations_per_unit file.now.params) };

    /// The verifier's replies and keys, to the asks for the trees of each unit.
    fn replies(
        &self,
        alloc: Global,
        file: &VerifierFile,
        columns: &Columns,
        span: Span,
        asks: &[Vec<TreeAsk>],
    ) -> Result<FanReply, AllocError>
        requires ready { Self.is_ready self.now }
        requires extended { file.now.params.kind ≡ Extended }
        requires units { span.end ≡ span.start + length asks.now }
        requires within { span.end ≤ file.now.params.total }
        requires columns { columns.now ≡ unit_code file.now.params file.now.code_seed }
        requires fits { All (AreAsks file.now.params.height file.now.params.trees) (lists_of asks.now) }
        ensures replies { IfOk result (λ r. lists_of r.replies.items
            ≡ replies_from file.now span.start (lists_of asks.now)) }
        ensures keys { IfOk result (λ r. r.keys.items ≡ span_keys file.now span) }
        ensures count { IfOk result (λ r. length r.keys.items
            ≡ length asks.now * correlations_per_unit file.now.params) };

    /// The prover's sums of all sections, of a walk that has given no product yet.
    fn sums(
        &self,
        alloc: Global,
        walk: &mut ProverWalk<'_>,
        g: u64,
        challenge: Fe,
        masks: &[Pair],
    ) -> Result<Vec<(Fe, Fe)>, AllocError>
        requires ready { Self.is_ready self.now }
        requires fresh { walk.old.met ≡ 0 }
        requires at_least_one { 1 ≤ g }
        requires masks { length masks.now ≡ section_count walk.old.side.program g }
        ensures side { walk.new.side ≡ walk.old.side }
        ensures met { OnOk result (length walk.old.side.program.products ≤ walk.new.met) }
        ensures sums { IfOk result (λ v. v.items
            ≡ all_sums walk.old.side.program g challenge walk.old.side.pairs masks.now) }
        ensures one_each { IfOk result (λ v. length v.items ≡ length masks.now) }
    {
        sums_along(alloc, walk, g, challenge, masks)
    }

    /// The verifier's check of all sections, of a walk that has given no product yet.
    fn check(
        &self,
        _alloc: Global,
        walk: &mut VerifierWalk<'_>,
        sent: &SentSums<'_>,
    ) -> Result<(), StreamFault>
        requires ready { Self.is_ready self.now }
        requires fresh { walk.old.met ≡ 0 }
        requires at_least_one { 1 ≤ sent.now.section_length }
        requires masks { length sent.now.mask_keys.now
            ≡ section_count walk.old.side.program sent.now.section_length }
        requires sums { length sent.now.sums.now ≡ length sent.now.mask_keys.now }
        ensures side { walk.new.side ≡ walk.old.side }
        ensures met { OnOk result (length walk.old.side.program.products ≤ walk.new.met) }
        ensures holds { IfOk result (λ _. AllSectionsHold (sent_check walk.old.side sent.now)) }
        ensures differs { IfErr result (λ e. (d : Differs) → e ≡ stream.Differs d
            → SectionDiffersFirst (sent_check walk.old.side sent.now) d) }
    {
        Ok(check_along(walk, sent)?)
    }
}

/// On the caller's own thread.
#[derive(Clone, Copy, Debug)]
pub struct OneThread;

impl Workers for OneThread {
    ghost is_ready = { λ _. Unit {0} };

    fn pairs(
        &self,
        alloc: Global,
        file: &ProverFile,
        columns: &Columns,
        span: Span,
        replies: &[Vec<TreeReply>],
    ) -> Result<Vec<Pair>, AllocError> {
        unit_pairs(alloc, file, columns, span.start, replies)
    }

    fn replies(
        &self,
        alloc: Global,
        file: &VerifierFile,
        columns: &Columns,
        span: Span,
        asks: &[Vec<TreeAsk>],
    ) -> Result<FanReply, AllocError> {
        unit_replies(alloc, file, columns, span.start, asks)
    }
}

/// Rounds by so many workers, of which each has a thread. A thread that cannot be made costs time alone.
#[derive(Drop)]
pub struct Fan<'a, R> {
    rt: &'a R,
    workers: u32,
    ghost some: { 1 ≤ workers },
    ghost few: { workers ≤ 1024 },
}

impl<'a, R: Threads + Sync> Fan<'a, R> {
    /// A fan of 1 to 1,024 workers.
    pub fn new(rt: &'a R, workers: u32) -> Self
        requires some { 1 ≤ workers }
        requires few { workers ≤ 1024 }
    {
        Fan { rt, workers }
    }
}

impl<'a, R: Threads + Sync> Workers for Fan<'a, R> {
    ghost is_ready = { λ _. IsSync R.row };

    fn pairs(
        &self,
        alloc: Global,
        file: &ProverFile,
        columns: &Columns,
        span: Span,
        replies: &[Vec<TreeReply>],
    ) -> Result<Vec<Pair>, AllocError> {
        fan_prover(self.rt, alloc, file, columns, span, replies, self.workers)
    }

    fn replies(
        &self,
        alloc: Global,
        file: &VerifierFile,
        columns: &Columns,
        span: Span,
        asks: &[Vec<TreeAsk>],
    ) -> Result<FanReply, AllocError> {
        fan_verifier(self.rt, alloc, file, columns, span, asks, self.workers)
    }
}
