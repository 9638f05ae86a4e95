// A statement about a circuit, as a claim.
ghost use Rattle.std.specs.Prelude.{◌≡◌, ◌≤◌, map};

use crate::judging::{answered_macs, answered_sums, judge_answers};
use mersenne_field::Fe;
use proof_frames::{Frame, Hello};
use session_claim::Claim;
use session_core::{HelloDiffers, Judgement, Statement, difference};
use std::alloc::{AllocError, Global};
use std::thread::Threads;
use zk_model::Expect;

/// That a statement holds, as a claim.
#[derive(Debug, Drop)]
pub struct StatementClaim<'a> {
    pub statement: &'a Statement<'a>,
}

impl<'a> Claim for StatementClaim<'a> {
    ghost use Rattle.circuit_session.specs.Statements.{statement_claim};

    ghost claim = { λ c. statement_claim c.statement.now };

    fn hello_place(&self) -> Expect {
        self.statement.hello_place()
    }

    fn difference(&self, id: [u8; 32], hello: &Hello) -> Option<HelloDiffers> {
        difference(id, self.statement, hello)
    }

    fn givens(&self) -> usize {
        self.statement.program().givens()
    }

    fn need(&self, section: u32) -> u64 {
        self.statement.program().need(u64::from(section))
    }

    fn has_places(&self) {}

    fn is_sound(&self) {
        let _stated = self.statement.program();
    }

    fn is_decided(&self) {
        let _stated = self.statement.program();
    }

    fn answers(&self, alloc: Global, section: u32) -> Result<Vec<Expect>, AllocError> {
        let program = self.statement.program();
        let _products = program.products();
        let sections = program.sections(u64::from(section)) as usize;
        let count = program.opened().len();
        let mut places = Vec::new(alloc);
        places.push(Expect::Sums { sections })?;
        places.push(Expect::Openings { count })?;
        Ok(places)
    }

    fn verdict_place(&self) -> Expect {
        Expect::Verdict
    }

    fn judge<R: Threads + Sync>(
        &self,
        _rt: &R,
        alloc: Global,
        key: Fe,
        keys: &[Fe],
        section: u32,
        corrections: &[Fe],
        challenge: Fe,
        answers: &[Frame],
    ) -> Result<Judgement, AllocError> {
        let sums = answered_sums(answers);
        let macs = answered_macs(answers);
        judge_answers(
            alloc,
            self.statement,
            key,
            keys,
            section,
            corrections,
            challenge,
            sums,
            macs,
        )
    }
}
