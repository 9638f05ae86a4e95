// What a verifier is to do, and how it judges a session.
ghost use Rattle.std.specs.Prelude.{◌≡◌, ◌+◌, ◌*◌, ◌≤◌, ◌^◌, length, IfOk, IfErr};
ghost use Rattle.zk_model.specs.Files.{AreParams, correlations_per_unit};
ghost use Rattle.zk_model.specs.Program.{section_count, part_count};
ghost use Rattle.zk_model.specs.Transcript as transcript;
ghost use Rattle.zk_model.specs.ServedVerifier.{challenge_coin};
ghost use Rattle.zk_model.specs.declared.Kind.TheVariants.{Direct};
ghost use Rattle.mult_check.specs.Checks.{sent_check, opening_check};
ghost use Rattle.session_core.specs.Ends.{masks_in};
ghost use Rattle.session_core.specs.Jobs.{IsVerifierJob, IsTooLarge, units_of_job, granted_from, verifier_of};
ghost use Rattle.session_core.specs.Fixing.{HoldsKeys};
ghost use Rattle.session_core.specs.Judgements.{AreLeftSides, IsRejectedFor, IsVerifierSide, Judges, Finds};
ghost use Rattle.zk_model.specs.declared.limits.TheConstants.{MAX_DEALT_UNITS, MAX_SECTION_LENGTH, MAX_UNITS};

use crate::judgement::Judgement;
use crate::left_sides::{LeftSides, judgement_from};
use crate::prover_job::{masks_of, units_of};
use crate::statement::Statement;
use crate::workers::Workers;
use dealer_files::VerifierFile;
use mersenne_field::Fe;
use mult_check::{SentSums, StreamFault, left_sides_along, opened_keys_along, openings_along};
use proof_frames::Grant;
use std::alloc::{AllocError, Global};
use std::marker::Model;
use thiserror::Error;
use wire_auth::VerifierWalk;
use zk_model::{Kind, MAX_UNITS, Params};

/// How many correlations a unit gives to a session.
pub(crate) fn correlations_per_unit(params: &Params) -> u64
    requires { AreParams params.now }
    ensures count { result ≡ correlations_per_unit params.now }
    ensures at_least_one { 1 ≤ result }
{
    match params.kind {
        Kind::Direct => 64,
        Kind::Extended => u64::from(params.trees) << u32::from(params.height),
    }
}

/// The least number of parts of a size that hold so many.
fn parts(count: u64, size: u64) -> u64
    requires { 1 ≤ size }
    ensures { result ≡ part_count count size }
{
    count.div_ceil(size)
}

/// The units that give this many correlations: at least one.
pub fn units_for(params: &Params, need: u64) -> u64
    requires { AreParams params.now }
    ensures { result ≡ transcript.units_for params.now need }
{
    parts(need, correlations_per_unit(params)).max(1)
}

/// A session needs so many correlations, and units of them above 4,096.
#[derive(Clone, Copy, Debug, PartialEq, Eq, Error)]
#[error("the session takes {need} correlations in {units} units")]
pub struct TooLarge {
    pub need: u64,
    pub units: u64,
}

/// What a verifier is to do: its statement and its file, and how many products its sections have, which are 1 to 2^20. The session
/// takes at most 4,096 units.
#[derive(Debug, Drop)]
pub struct VerifierJob<'a> {
    statement: &'a Statement<'a>,
    file: &'a VerifierFile,
    section: u32,
}

impl<'a> Model for VerifierJob<'a> {
    ghost use Rattle.session_core.specs.Jobs as jobs;
    ghost use Rattle.session_core.specs.Jobs.{IsVerifierJob};

    ghost Value = { jobs.VerifierJob };

    ghost view = { λ j. record {
      task = record { file = j.file.now; statement = j.statement.now };
      section_length = j.section;
    } };

    ghost invariant = { λ j. IsVerifierJob (record {
      task = record { file = j.file.now; statement = j.statement.now };
      section_length = j.section;
    }) };
}

/// What is said of the sums where their check ends like this: that those of the first section that differs are refused.
fn rejected_sum(fault: StreamFault) -> Result<Judgement, AllocError>
    ensures { IfOk result (IsRejectedFor fault) }
{
    match fault {
        StreamFault::Differs(differs) => Ok(Judgement::of_section(differs)),
        StreamFault::NoMemory => Err(AllocError),
    }
}

/// What the checks of all sections and of all opened wires say, along a walk that has given no product yet.
fn judgement_of<H: Workers>(
    workers: &H,
    alloc: Global,
    walk: &mut VerifierWalk<'_>,
    sent: &SentSums<'_>,
    openings: &[Fe],
    claims: &[Fe],
) -> Result<Judgement, AllocError>
    requires ready { H.is_ready workers.now }
    requires fresh { walk.old.met ≡ 0 }
    requires at_least_one { 1 ≤ sent.now.section_length }
    requires masks { length sent.now.mask_keys.now
        ≡ section_count walk.old.side.program sent.now.section_length }
    requires sums { length sent.now.sums.now ≡ length sent.now.mask_keys.now }
    requires openings { length openings.now ≡ length walk.old.side.program.opened }
    requires claims { length claims.now ≡ length walk.old.side.program.opened }
    ensures { IfOk result (Judges (sent_check walk.old.side sent.now)
        (opening_check walk.old.side sent.now.key openings.now claims.now)) }
{
    if let Err(fault) = workers.check(alloc, walk, sent) {
        return rejected_sum(fault);
    }
    match openings_along(walk, sent.key, openings, claims) {
        Err(differs) => Ok(Judgement::of_opening(differs)),
        Ok(()) => Ok(Judgement::Accepted),
    }
}

impl<'a> VerifierJob<'a> {
    /// A job with sections of 1 to 2^20 products, where its session takes at most 4,096 units; or what the session would take.
    pub fn fit(
        statement: &'a Statement<'a>,
        file: &'a VerifierFile,
        section: u32,
    ) -> Result<Self, TooLarge>
        requires at_least_one { 1 ≤ section }
        requires at_most { section ≤ MAX_SECTION_LENGTH }
        ensures fits { IfOk result (λ job. job ≡ verifier_of statement.now file.now section) }
        ensures bounded { IfOk result (λ job. units_of_job job ≤ MAX_UNITS) }
        ensures many { IfErr result (IsTooLarge (verifier_of statement.now file.now section)) }
    {
        let need = statement.program().need(u64::from(section));
        let units = units_for(&file.params(), need);
        if units > MAX_UNITS {
            return Err(TooLarge { need, units });
        }
        Ok(VerifierJob::new(statement, file, section))
    }

    /// A job with sections of 1 to 2^20 products and at most 4,096 units.
    pub fn new(statement: &'a Statement<'a>, file: &'a VerifierFile, section: u32) -> Self
        requires { IsVerifierJob (record {
          task = record { file = file.now; statement = statement.now };
          section_length = section;
        }) }
        ensures { result ≡ record {
          task = record { file = file.now; statement = statement.now };
          section_length = section;
        } }
    {
        VerifierJob {
            statement,
            file,
            section,
        }
    }

    /// What it is about.
    pub fn statement(&self) -> &'a Statement<'a>
        ensures statement { result.now ≡ self.now.task.statement }
        ensures job { IsVerifierJob self.now }
    {
        self.statement
    }

    /// Its file.
    pub fn file(&self) -> &'a VerifierFile
        ensures file { result.now ≡ self.now.task.file }
        ensures job { IsVerifierJob self.now }
    {
        self.file
    }

    /// How many products a section has.
    pub fn section(&self) -> u32
        ensures section { result ≡ self.now.section_length }
        ensures job { IsVerifierJob self.now }
    {
        self.section
    }

    /// The units that its session takes.
    pub fn units(&self) -> u32
        ensures units { result ≡ units_of_job self.now }
        ensures job { IsVerifierJob self.now }
    {
        let need = self.statement.program().need(u64::from(self.section));
        units_for(&self.file.params(), need) as u32
    }

    /// The grant of its units from this one on.
    pub fn grant(&self, start: u64) -> Grant
        ensures { result ≡ granted_from self.now start }
    {
        Grant {
            start,
            count: self.units(),
            section: self.section,
        }
    }

    /// The challenge of the session whose first unit this is: its coin.
    pub fn challenge(&self, start: u64) -> Fe
        requires { start ≤ MAX_DEALT_UNITS }
        ensures { result ≡ challenge_coin self.now.task.file start }
    {
        self.file.challenge(start)
    }

    /// The keys that are dealt in the units of its grant from this one on: those of its session in kind direct.
    pub fn dealt_keys(&self, start: u64) -> &'a [Fe]
        requires direct { self.now.task.file.params.kind ≡ Direct }
        requires within { start + units_of_job self.now ≤ self.now.task.file.params.total }
        ensures { HoldsKeys self.now start result.now }
    {
        let _total = self.file.total();
        self.file.keys(units_of(self.grant(start)))
    }

    /// What it finds of the session whose first unit this is and whose keys these are, in which these corrections, sums and openings
    /// came: the first section whose sums do not meet its keys, else the first opened wire whose MAC does not open to the claim, else
    /// that all is well.
    ///
    /// # Errors
    ///
    /// Only where memory runs out.
    pub fn judge<H: Workers>(
        &self,
        workers: &H,
        alloc: Global,
        start: u64,
        keys: &[Fe],
        corrections: &[Fe],
        sums: &[(Fe, Fe)],
        openings: &[Fe],
    ) -> Result<Judgement, AllocError>
        requires ready { H.is_ready workers.now }
        requires within { start + units_of_job self.now ≤ self.now.task.file.params.total }
        requires keys { HoldsKeys self.now start keys.now }
        requires corrections { length corrections.now ≡ self.now.task.statement.program.givens }
        requires sums { length sums.now
            ≡ section_count self.now.task.statement.program self.now.section_length }
        requires openings { length openings.now ≡ length self.now.task.statement.program.opened }
        ensures { IfOk result (λ judgement.
            Finds self.now start corrections.now sums.now openings.now judgement) }
    {
        let _total = self.file.total();
        let masks = self.mask_keys(keys);
        let mut walk = self.walk(alloc, keys, corrections)?;
        let sent = SentSums {
            section_length: u64::from(self.section),
            challenge: self.challenge(start),
            mask_keys: masks,
            key: self.file.key(),
            sums,
        };
        let claims = self.statement.claims();
        let judgement = judgement_of(workers, alloc, &mut walk, &sent, openings, claims)?;
        Ok(judgement)
    }

    /// What it has of the session whose first unit this is and whose keys these are, in which these corrections came, before the
    /// prover's sums and openings come.
    ///
    /// # Errors
    ///
    /// Only where memory runs out.
    pub fn left_sides(
        &self,
        alloc: Global,
        start: u64,
        keys: &[Fe],
        corrections: &[Fe],
    ) -> Result<LeftSides, AllocError>
        requires within { start + units_of_job self.now ≤ self.now.task.file.params.total }
        requires keys { HoldsKeys self.now start keys.now }
        requires corrections { length corrections.now ≡ self.now.task.statement.program.givens }
        ensures { IfOk result (AreLeftSides self.now start corrections.now) }
    {
        let section = u64::from(self.section);
        let masks = self.mask_keys(keys);
        let key = self.file.key();
        let challenge = self.challenge(start);
        let mut walk = self.walk(alloc, keys, corrections)?;
        let sections = left_sides_along(alloc, &mut walk, section, challenge, masks, key)?;
        let opened = opened_keys_along(alloc, &walk)?;
        Ok(LeftSides { sections, opened })
    }

    /// What it finds of a session of which it has these left sides, as `judge` does. The corrections are those that came in it.
    pub fn judge_left_sides(
        &self,
        start: u64,
        corrections: &[Fe],
        left_sides: &LeftSides,
        sums: &[(Fe, Fe)],
        openings: &[Fe],
    ) -> Judgement
        requires within { start + units_of_job self.now ≤ self.now.task.file.params.total }
        requires left_sides { AreLeftSides self.now start corrections.now left_sides.now }
        requires sums { length sums.now
            ≡ section_count self.now.task.statement.program self.now.section_length }
        requires openings { length openings.now ≡ length self.now.task.statement.program.opened }
        ensures { Finds self.now start corrections.now sums.now openings.now result }
    {
        let program = self.statement.program();
        let _opened = program.opened();
        let key = self.file.key();
        let claims = self.statement.claims();
        judgement_from(left_sides, key, sums, openings, claims)
    }

    /// The keys of the sections' masks, of those of a session's correlations.
    fn mask_keys<'k>(&self, keys: &'k [Fe]) -> &'k [Fe]
        requires { length keys.now ≡ units_of_job self.now * correlations_per_unit self.now.task.file.params }
        ensures masks { result.now
            ≡ masks_in self.now.task.statement.program self.now.section_length keys.now }
        ensures count { length result.now
            ≡ section_count self.now.task.statement.program self.now.section_length }
    {
        let program = self.statement.program();
        let section = u64::from(self.section);
        let _total = self.file.total();
        let sections = program.sections(section) as usize;
        masks_of(keys, program.givens(), sections)
    }

    /// A walk along its program with these keys and corrections, which has given no product yet.
    fn walk<'w>(
        &'w self,
        alloc: Global,
        keys: &'w [Fe],
        corrections: &'w [Fe],
    ) -> Result<VerifierWalk<'w>, AllocError>
        requires keys { length keys.now
            ≡ units_of_job self.now * correlations_per_unit self.now.task.file.params }
        requires corrections { length corrections.now ≡ self.now.task.statement.program.givens }
        ensures side { IfOk result (λ walk. IsVerifierSide self.now keys.now corrections.now walk.side) }
        ensures fresh { IfOk result (λ walk. walk.met ≡ 0) }
    {
        let program = self.statement.program();
        let plan = self.statement.plan();
        let public = self.statement.public();
        let key = self.file.key();
        let _total = self.file.total();
        let _givens = program.givens();
        let walk = VerifierWalk::new(alloc, program, plan, public, keys, key, corrections)?;
        Ok(walk)
    }
}
