// What a prover is to do, and how it answers a grant and a challenge.
ghost use Rattle.std.specs.Prelude.{◌≡◌, true, false, ◌+◌, ◌*◌, ◌≤◌, ◌^◌, ℕ, List, length, take, drop, IfOk, IfSome};
ghost use Rattle.zk_model.specs.Mac.{macs_of};
ghost use Rattle.zk_model.specs.Program.{AreMade, section_count};
ghost use Rattle.zk_model.specs.Files.{correlations_per_unit, span_pairs};
ghost use Rattle.zk_model.specs.Check.{all_sums, opened_pairs};
ghost use Rattle.zk_model.specs.Transcript.{IsGrant, wanted_hello};
ghost use Rattle.zk_model.specs.View.{span_of};
ghost use Rattle.zk_model.specs.declared.Kind.TheVariants.{Direct};
ghost use Rattle.session_core.specs.Ends.{IsFixed, masks_in};
ghost use Rattle.wire_auth.specs.Values.{given_made};
ghost use Rattle.session_core.specs.Jobs.{AreWitnessValues, IsProverJob, Suits, prover_from};
ghost use Rattle.session_core.specs.Fixing.{AreEnough, IsFixedUnder, pairs_fixed};
ghost use Rattle.zk_model.specs.declared.limits.TheConstants.{MAX_DEALT_UNITS, MAX_GATES, MAX_WIRES};

use crate::statement::Statement;
use crate::verifier_job::units_for;
use crate::wire_values::{WireValues, known_corrections, taken_corrections};
use crate::workers::Workers;
use dealer_files::ProverFile;
use mersenne_field::{Fe, Pair};
use proof_frames::{Grant, Hello};
use std::alloc::{AllocError, Global};
use std::marker::Model;
use wire_auth::{ProverWalk, walk_corrections};
use zk_model::{MAX_SECTION_LENGTH, MAX_UNITS, Span};

/// What a prover is to do: its statement and its file, and the values of its private inputs; and what makes its given values, where it is
/// known.
#[derive(Debug, Drop)]
pub struct ProverJob<'a> {
    statement: &'a Statement<'a>,
    file: &'a ProverFile,
    inputs: &'a [Fe],
    wires: Option<&'a WireValues>,
}

impl<'a> Model for ProverJob<'a> {
    ghost use Rattle.std.specs.Prelude.{◌≡◌, length, IfSome};
    ghost use Rattle.wire_auth.specs.Values.{given_made};
    ghost use Rattle.session_core.specs.Jobs as jobs;
    ghost use Rattle.session_core.specs.Jobs.{AreWitnessValues, IsProverJob, prover_from};

    ghost Value = { jobs.ProverJob };

    ghost view = { λ p. prover_from p.statement.now p.inputs.now p.file.now };

    ghost invariant = { λ p. IsProverJob (prover_from p.statement.now p.inputs.now p.file.now)
        × (length p.inputs.now ≡ p.statement.now.program.inputs)
        × IfSome p.wires (λ wires. AreWitnessValues (given_made p.statement.now.program p.statement.now.public p.inputs.now)
        p.statement.now.program wires.now) };
}

/// What a prover answers a challenge by.
#[derive(Debug, Drop)]
pub struct Opened {
    pub sums: Vec<(Fe, Fe)>,
    pub openings: Vec<Fe>,
}

/// As many items as there are sections, after those of the given values.
pub(crate) fn masks_of<T>(items: &[T], givens: usize, sections: usize) -> &[T]
    requires { givens + sections ≤ length items.now }
    ensures masks { result.now ≡ take sections (drop givens items.now) }
    ensures count { length result.now ≡ sections }
{
    &items[givens..givens + sections]
}

/// The units of a grant.
pub fn units_of(grant: Grant) -> Span
    requires { grant.start + grant.count ≤ MAX_DEALT_UNITS }
    ensures { result ≡ span_of grant }
{
    Span {
        start: grant.start,
        end: grant.start + u64::from(grant.count),
    }
}

/// The MACs of the opened wires, of a walk that has given its last product.
fn opened_macs(alloc: Global, walk: &ProverWalk<'_>) -> Result<Vec<Fe>, AllocError>
    requires done { length walk.now.side.program.products ≤ walk.now.met }
    ensures macs { IfOk result (λ macs. macs.items
        ≡ macs_of (opened_pairs walk.now.side.program walk.now.side.pairs)) }
    ensures one_each { IfOk result (λ macs. length macs.items ≡ length walk.now.side.program.opened) }
    ensures bounded { length walk.now.side.program.opened ≤ MAX_WIRES + MAX_GATES }
{
    let opened = walk.program().opened();
    let mut macs = Vec::with_capacity(alloc, opened.len())?;
    for o in 0..opened.len() {
        macs.push(walk.output(o).m)?;
    }
    Ok(macs)
}

impl<'a> ProverJob<'a> {
    /// A job with the values of the private inputs. Its given values are what these and the statement's public values make.
    pub fn new(statement: &'a Statement<'a>, file: &'a ProverFile, inputs: &'a [Fe]) -> Self
        requires { length inputs.now ≡ statement.now.program.inputs }
        ensures job { result ≡ prover_from statement.now inputs.now file.now }
        ensures made { (wires : List ℕ)
            × AreMade statement.now.program statement.now.public inputs.now wires result.given }
    {
        let _givens = statement.program().givens();
        ProverJob {
            statement,
            file,
            inputs,
            wires: None,
        }
    }

    /// A job with the values of the private inputs, and what makes its given values: it makes its corrections of these, without a walk along
    /// the program.
    pub fn with_wires(
        statement: &'a Statement<'a>,
        file: &'a ProverFile,
        inputs: &'a [Fe],
        wires: &'a WireValues,
    ) -> Self
        requires inputs { length inputs.now ≡ statement.now.program.inputs }
        requires wires { AreWitnessValues (given_made statement.now.program statement.now.public inputs.now)
            statement.now.program wires.now }
        ensures job { result ≡ prover_from statement.now inputs.now file.now }
        ensures made { (wires : List ℕ)
            × AreMade statement.now.program statement.now.public inputs.now wires result.given }
    {
        let _givens = statement.program().givens();
        ProverJob {
            statement,
            file,
            inputs,
            wires: Some(wires),
        }
    }

    /// What it is about.
    pub fn statement(&self) -> &'a Statement<'a>
        ensures statement { result.now ≡ self.now.statement }
        ensures job { IsProverJob self.now }
    {
        self.statement
    }

    /// Its file.
    pub fn file(&self) -> &'a ProverFile
        ensures file { result.now ≡ self.now.file }
        ensures job { IsProverJob self.now }
    {
        self.file
    }

    /// The greeting.
    pub fn greet(&self) -> Hello
        ensures { result ≡ wanted_hello self.now.file.id self.now.statement }
    {
        self.statement.hello(self.file.id())
    }

    /// Whether a grant is one of a session about its statement: its sections have 1 to 2^20 products, and its units are as
    /// many as these take, and 4,096 at most.
    pub fn suits(&self, grant: Grant) -> bool
        ensures yes { result ≡ true → Suits self.now.file.params self.now.statement.program grant }
        ensures no { result ≡ false → ¬ Suits self.now.file.params self.now.statement.program grant }
    {
        if grant.section < 1 || grant.section > MAX_SECTION_LENGTH {
            return false;
        }
        let need = self.statement.program().need(u64::from(grant.section));
        let count = u64::from(grant.count);
        count == units_for(&self.file.params(), need) && count <= MAX_UNITS
    }

    /// The pairs that are dealt in the units of a grant: those of its session in kind direct.
    pub fn dealt_pairs(&self, grant: Grant) -> &'a [Pair]
        requires direct { self.now.file.params.kind ≡ Direct }
        requires granted { IsGrant self.now.file.params self.now.statement.program grant }
        ensures pairs { result.now ≡ span_pairs self.now.file (span_of grant) }
        ensures count { length result.now ≡ grant.count * correlations_per_unit self.now.file.params }
    {
        let _total = self.file.total();
        self.file.pairs(units_of(grant))
    }

    /// The pairs of a session's correlations are answered by the corrections that make them those of the given values: of what makes these,
    /// where it is known, or else of a walk along the program.
    ///
    /// # Errors
    ///
    /// Only where memory runs out.
    pub fn commit(&self, alloc: Global, grant: Grant, pairs: &[Pair]) -> Result<Vec<Fe>, AllocError>
        requires at_least_one { 1 ≤ grant.section_length }
        requires enough { AreEnough self.now grant.section_length pairs.now }
        ensures fixed { IfOk result (λ d. IsFixed self.now.statement self.now.given
            pairs.now d.items (pairs_fixed self.now pairs.now)) }
        ensures one_each { IfOk result (λ d. length d.items ≡ self.now.statement.program.givens) }
    {
        match self.wires {
            None => self.commit_walked(alloc, grant, pairs),
            Some(wires) => self.commit_known(alloc, grant, pairs, wires),
        }
    }

    /// Does so by a walk.
    fn commit_walked(
        &self,
        alloc: Global,
        grant: Grant,
        pairs: &[Pair],
    ) -> Result<Vec<Fe>, AllocError>
        requires at_least_one { 1 ≤ grant.section_length }
        requires enough { AreEnough self.now grant.section_length pairs.now }
        ensures fixed { IfOk result (λ d. IsFixed self.now.statement self.now.given
            pairs.now d.items (pairs_fixed self.now pairs.now)) }
        ensures one_each { IfOk result (λ d. length d.items ≡ self.now.statement.program.givens) }
    {
        let program = self.statement.program();
        let plan = self.statement.plan();
        let public = self.statement.public();
        let _givens = program.givens();
        let corrections = walk_corrections(alloc, program, plan, public, self.inputs, pairs)?;
        Ok(corrections)
    }

    /// Does so of what makes the given values.
    fn commit_known(
        &self,
        alloc: Global,
        grant: Grant,
        pairs: &[Pair],
        wires: &WireValues,
    ) -> Result<Vec<Fe>, AllocError>
        requires at_least_one { 1 ≤ grant.section_length }
        requires enough { AreEnough self.now grant.section_length pairs.now }
        requires wires { AreWitnessValues self.now.given self.now.statement.program wires.now }
        ensures fixed { IfOk result (λ d. IsFixed self.now.statement self.now.given
            pairs.now d.items (pairs_fixed self.now pairs.now)) }
        ensures one_each { IfOk result (λ d. length d.items ≡ self.now.statement.program.givens) }
    {
        let program = self.statement.program();
        let _givens = program.givens();
        let corrections = known_corrections(alloc, program, wires, pairs)?;
        Ok(corrections)
    }

    /// The answer of `commit` of what makes the given values, which is given up: they leave their places to the corrections.
    ///
    /// # Errors
    ///
    /// Only where memory runs out.
    pub fn commit_with(
        &self,
        alloc: Global,
        grant: Grant,
        pairs: &[Pair],
        wires: WireValues,
    ) -> Result<Vec<Fe>, AllocError>
        requires at_least_one { 1 ≤ grant.section_length }
        requires enough { AreEnough self.now grant.section_length pairs.now }
        requires wires { AreWitnessValues self.now.given self.now.statement.program wires }
        ensures fixed { IfOk result (λ d. IsFixed self.now.statement self.now.given
            pairs.now d.items (pairs_fixed self.now pairs.now)) }
        ensures one_each { IfOk result (λ d. length d.items ≡ self.now.statement.program.givens) }
    {
        let program = self.statement.program();
        let _givens = program.givens();
        let corrections = taken_corrections(alloc, program, wires, pairs)?;
        Ok(corrections)
    }

    /// A challenge is answered by the sums of all sections and the MACs of the opened wires.
    ///
    /// # Errors
    ///
    /// Only where memory runs out.
    pub fn open<H: Workers>(
        &self,
        workers: &H,
        alloc: Global,
        grant: Grant,
        pairs: &[Pair],
        challenge: Fe,
    ) -> Result<Opened, AllocError>
        requires ready { H.is_ready workers.now }
        requires held { IsFixedUnder self.now grant pairs.now }
        ensures sums { IfOk result (λ o. o.sums.items
            ≡ all_sums self.now.statement.program grant.section_length challenge
            (pairs_fixed self.now pairs.now) (drop self.now.statement.program.givens pairs.now)) }
        ensures openings { IfOk result (λ o. o.openings.items
            ≡ macs_of (opened_pairs self.now.statement.program (pairs_fixed self.now pairs.now))) }
        ensures sum_count { IfOk result (λ o. length o.sums.items
            ≡ section_count self.now.statement.program grant.section_length) }
        ensures opening_count { IfOk result (λ o. length o.openings.items
            ≡ length self.now.statement.program.opened) }
        ensures bounded { IfOk result (λ o. length o.openings.items ≤ MAX_WIRES + MAX_GATES) }
    {
        let section = u64::from(grant.section);
        let program = self.statement.program();
        let sections = program.sections(section) as usize;
        let masks = masks_of(pairs, program.givens(), sections);
        let mut walk = self.walk(alloc, pairs)?;
        let sums = workers.sums(alloc, &mut walk, section, challenge, masks)?;
        let openings = opened_macs(alloc, &walk)?;
        Ok(Opened { sums, openings })
    }

    /// A walk along its program with these pairs, which has given no product yet.
    fn walk<'w>(&'w self, alloc: Global, pairs: &'w [Pair]) -> Result<ProverWalk<'w>, AllocError>
        requires { self.now.statement.program.givens ≤ length pairs.now }
        ensures walk { IfOk result (λ walk. (walk.side.program ≡ self.now.statement.program)
            × (walk.side.pairs ≡ pairs_fixed self.now pairs.now) × (walk.met ≡ 0)) }
    {
        let program = self.statement.program();
        let plan = self.statement.plan();
        let public = self.statement.public();
        let _givens = program.givens();
        let walk = ProverWalk::new(alloc, program, plan, public, self.inputs, pairs)?;
        Ok(walk)
    }
}
