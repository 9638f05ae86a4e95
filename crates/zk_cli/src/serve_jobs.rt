// What a verifier that serves is to do about each claim.
ghost use Rattle.std.specs.Prelude.{◌≡◌, ◌≤◌, ◌<◌, All, IfOk, IfErr, map};
ghost use Rattle.zk_model.specs.declared.limits.TheConstants.{MAX_SECTION_LENGTH, MAX_UNITS};
ghost use Rattle.session_core.specs.Jobs.{units_of_job, verifier_of};
ghost use Rattle.zk_cli.specs.ServeRuns.{FitStop};

use dealer_files::VerifierFile;
use file_commands::Refusal;
use session_core::{CircuitClaim, Statement, TooLarge, VerifierJob, VerifierJobs};
use std::alloc::{AllocError, Global};

/// The statements of these claims, in order.
pub fn statements_of<'a>(
    alloc: Global,
    claims: &'a [CircuitClaim],
) -> Result<Vec<Statement<'a>>, AllocError>
    ensures { IfOk result (λ statements. statements.items ≡ claims.now) }
{
    let mut statements = Vec::new(alloc);
    for claim in claims {
        statements.push(claim.statement())?;
    }
    Ok(statements)
}

/// The jobs about these statements, in order, over the file, in sections of this length; or the first that is too large.
pub fn fit_jobs<'a>(
    alloc: Global,
    statements: &'a [Statement<'a>],
    file: &'a VerifierFile,
    section: u32,
) -> Result<Vec<VerifierJob<'a>>, Refusal>
    requires at_least_one { 1 ≤ section }
    requires at_most { section ≤ MAX_SECTION_LENGTH }
    ensures jobs { IfOk result (λ jobs.
        jobs.items ≡ map (λ s. verifier_of s file.now section) statements.now) }
    ensures few { IfOk result (λ jobs. All (λ job. units_of_job job ≤ MAX_UNITS) jobs.items) }
    ensures stop { IfErr result (FitStop (map (λ s. verifier_of s file.now section) statements.now)) }
{
    let mut jobs = Vec::new(alloc);
    for statement in statements {
        let job = match VerifierJob::fit(statement, file, section) {
            Ok(job) => job,
            Err(TooLarge { need, units }) => return Err(Refusal::TooLarge { need, units }),
        };
        match jobs.push(job) {
            Ok(()) => {}
            Err(_) => return Err(Refusal::NoMemory),
        }
    }
    Ok(jobs)
}

/// How many units the session of a job takes at most: that of the job that takes the most.
pub fn most_units(jobs: &VerifierJobs<'_>) -> u64
    ensures { 0 < result }
{
    let mut most = 1;
    for n in 0..jobs.count() {
        most = u64::from(jobs.job(n).units()).max(most);
    }
    most
}
