// What a verifier is to do of which several statements may be proved.
ghost use Rattle.std.specs.Prelude.{◌≡◌, ◌≤◌, ◌<◌, length, IfSome, IfNone};
ghost use Rattle.session_core.specs.Jobs.{AreVerifierJobs, IsForNone, IsFirstFor, all_jobs, job_at, noted_job};
ghost use Rattle.zk_model.specs.Audit.{hello_place};
ghost use Rattle.proof_frames.specs.Readings.{IsShortPlace};
ghost use Rattle.zk_model.specs.Transcript.{HasForm};
ghost use Rattle.zk_model.specs.declared.limits.TheConstants.{MAX_STATEMENTS};

use crate::hellos::is_hello_of;
use crate::verifier_job::VerifierJob;
use proof_frames::Hello;
use std::marker::Model;
use zk_model::Expect;

/// What a verifier is to do: a job for each statement that may be proved to it, of one kind and over its one file. There are 1 to 256.
#[derive(Debug, Drop)]
pub struct VerifierJobs<'a> {
    first: &'a VerifierJob<'a>,
    others: &'a [VerifierJob<'a>],
}

impl<'a> Model for VerifierJobs<'a> {
    ghost use Rattle.session_core.specs.Jobs as jobs;
    ghost use Rattle.session_core.specs.Jobs.{AreVerifierJobs};

    ghost Value = { jobs.VerifierJobs };

    ghost view = { λ j. record { first = j.first.now; others = j.others.now } };

    ghost invariant = { λ j. AreVerifierJobs (record { first = j.first.now; others = j.others.now }) };
}

impl<'a> VerifierJobs<'a> {
    /// The jobs, in order.
    pub fn new(first: &'a VerifierJob<'a>, others: &'a [VerifierJob<'a>]) -> Self
        requires { AreVerifierJobs (record { first = first.now; others = others.now }) }
        ensures { result ≡ record { first = first.now; others = others.now } }
    {
        VerifierJobs { first, others }
    }

    /// How many there are.
    pub fn count(&self) -> usize
        ensures count { result ≡ length (all_jobs self.now) }
        ensures few { AreVerifierJobs self.now }
    {
        self.others.len() + 1
    }

    /// The job of this number, counted from 0.
    pub fn job(&self, n: usize) -> &'a VerifierJob<'a>
        requires { n < length (all_jobs self.now) }
        ensures { result.now ≡ job_at self.now n }
    {
        match n.checked_sub(1) {
            None => self.first,
            Some(before) => &self.others[before],
        }
    }

    /// The job about the statement of this number that was taken; the first, where none was.
    pub fn noted(&self, statement: Option<u32>) -> &'a VerifierJob<'a>
        requires within { IfSome statement (λ n. n < length (all_jobs self.now)) }
        ensures noted { result.now ≡ noted_job self.now statement }
        ensures file { result.now.task.file ≡ self.now.first.task.file }
        ensures kind { result.now.task.statement.kind ≡ self.now.first.task.statement.kind }
    {
        match statement {
            None => self.first,
            Some(n) => self.job(n as usize),
        }
    }

    /// The place of a hello: the statements are of one kind.
    pub fn hello_place(&self) -> Expect
        ensures place { result ≡ hello_place self.now.first.task.statement.kind }
        ensures short { IsShortPlace result }
    {
        self.first.statement().hello_place()
    }

    /// The number of the first job whose file and statement a hello, of a form that is allowed, is for, if it is for one.
    pub fn first_for(&self, hello: &Hello) -> Option<u32>
        requires form { HasForm self.now.first.task.statement.kind hello.now.public }
        ensures first { IfSome result (λ n. IsFirstFor self.now n hello.now) }
        ensures none { IfNone result (IsForNone self.now hello.now) }
    {
        for n in 0..self.count() {
            if is_hello_of(self.job(n), hello) {
                return Some(n as u32);
            }
        }
        None
    }
}
