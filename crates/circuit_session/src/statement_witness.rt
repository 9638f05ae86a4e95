// What a prover knows for a statement about a circuit.
ghost use Rattle.std.specs.Prelude.{◌≡◌, ◌≤◌, length, IfOk};
ghost use Rattle.zk_model.specs.Frames.{AreElements};
ghost use Rattle.zk_model.specs.HonestProver.{honest_corrections};
ghost use Rattle.wire_auth.specs.Values.{given_made};

use crate::opening::open_statement;
use crate::statement_claim::StatementClaim;
use claim_prover::Witness;
use mersenne_field::{Fe, Pair};
use proof_frames::{Frame, Hello};
use session_claim::Claim;
use session_core::{HelloDiffers, Judgement, Statement};
use std::alloc::{AllocError, Global};
use std::thread::Threads;
use wire_auth::walk_corrections;
use zk_model::Expect;

/// Values of a statement's private inputs, which a prover says to make its program give the claims.
#[derive(Debug, Drop)]
pub struct StatementWitness<'a> {
    claim: StatementClaim<'a>,
    inputs: &'a [Fe],
    ghost counted: { length inputs.now ≡ claim.statement.now.program.inputs },
}

/// The corrections that turn dealt pairs into those of the values that a statement's inputs make.
fn corrections_of(
    alloc: Global,
    statement: &Statement<'_>,
    inputs: &[Fe],
    pairs: &[Pair],
) -> Result<Vec<Fe>, AllocError>
    requires inputs { length inputs.now ≡ statement.now.program.inputs }
    requires enough { statement.now.program.givens ≤ length pairs.now }
    ensures honest { IfOk result (λ d. d.items
        ≡ honest_corrections (given_made statement.now.program statement.now.public inputs.now) pairs.now) }
    ensures fit { IfOk result (λ d. AreElements statement.now.program.givens d.items) }
{
    let program = statement.program();
    let plan = statement.plan();
    let public = statement.public();
    let _givens = program.givens();
    let corrections = walk_corrections(alloc, program, plan, public, inputs, pairs)?;
    Ok(corrections)
}

impl<'a> StatementWitness<'a> {
    /// A value for each private input.
    pub fn new(statement: &'a Statement<'a>, inputs: &'a [Fe]) -> Self
        requires counted { length inputs.now ≡ statement.now.program.inputs }
        ensures statement { result.claim.statement.now ≡ statement.now }
        ensures inputs { result.inputs.now ≡ inputs.now }
    {
        let claim = StatementClaim { statement };
        StatementWitness { claim, inputs }
    }
}

impl<'a> Claim for StatementWitness<'a> {
    ghost use Rattle.circuit_session.specs.Statements.{statement_claim};

    ghost claim = { λ w. statement_claim w.claim.statement.now };

    fn hello_place(&self) -> Expect {
        self.claim.hello_place()
    }

    fn difference(&self, id: [u8; 32], hello: &Hello) -> Option<HelloDiffers> {
        self.claim.difference(id, hello)
    }

    fn givens(&self) -> usize {
        self.claim.givens()
    }

    fn need(&self, section: u32) -> u64 {
        self.claim.need(section)
    }

    fn has_places(&self) {
        self.claim.has_places();
    }

    fn is_sound(&self) {
        self.claim.is_sound();
    }

    fn is_decided(&self) {
        self.claim.is_decided();
    }

    fn answers(&self, alloc: Global, section: u32) -> Result<Vec<Expect>, AllocError> {
        self.claim.answers(alloc, section)
    }

    fn verdict_place(&self) -> Expect {
        self.claim.verdict_place()
    }

    fn judge<R: Threads + Sync>(
        &self,
        rt: &R,
        alloc: Global,
        key: Fe,
        keys: &[Fe],
        section: u32,
        corrections: &[Fe],
        challenge: Fe,
        answers: &[Frame],
    ) -> Result<Judgement, AllocError> {
        self.claim.judge(
            rt,
            alloc,
            key,
            keys,
            section,
            corrections,
            challenge,
            answers,
        )
    }
}

impl<'a> Witness for StatementWitness<'a> {
    ghost use Rattle.zk_model.specs.Transcript.{wanted_hello};
    ghost use Rattle.wire_auth.specs.Values.{given_made};
    ghost use Rattle.circuit_session.specs.Witnesses.{statement_replies};

    ghost said = { λ w id. wanted_hello id w.claim.statement.now };

    ghost given = { λ w. given_made w.claim.statement.now.program w.claim.statement.now.public w.inputs.now };

    ghost replying = { λ w pairs section_length challenge.
        statement_replies w.claim.statement.now w.inputs.now pairs section_length challenge };

    fn hello(&self, id: [u8; 32]) -> Hello {
        let _program = self.claim.statement.program();
        self.claim.statement.hello(id)
    }

    fn corrections(&self, alloc: Global, pairs: &[Pair]) -> Result<Vec<Fe>, AllocError> {
        corrections_of(alloc, self.claim.statement, self.inputs, pairs)
    }

    fn answer<R: Threads + Sync>(
        &self,
        _rt: &R,
        alloc: Global,
        pairs: &[Pair],
        section: u32,
        challenge: Fe,
    ) -> Result<Vec<Frame>, AllocError> {
        let statement = self.claim.statement;
        let opened = open_statement(alloc, statement, self.inputs, pairs, section, challenge)?;
        let mut answers = Vec::new(alloc);
        answers.push(Frame::Sums(opened.sums))?;
        answers.push(Frame::Openings(opened.openings))?;
        Ok(answers)
    }
}
