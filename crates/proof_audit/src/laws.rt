// What a log can be at once.
ghost use Rattle.proof_audit.specs.Laws.{WholeLogsAreRight, AcceptedLogsAreRight, FoundShowsOutputs, OneAnswer};

/// A log whose bytes are faultless frames behind which none may follow has no fault, and does not end early.
pub fn whole_logs_are_right()
    ensures { WholeLogsAreRight }
{}

/// The log of a session that the verifier leads and accepts has no fault, and it is not one of a session that is not accepted.
pub fn accepted_logs_are_right()
    ensures { AcceptedLogsAreRight }
{}

/// What is found in a log shows of its session what an accepted one shows of a circuit's outputs: private bits that, beside the
/// public ones, make a Boolean circuit give them, or elements that make an arithmetic one give them and meet its assertions; or a root at
/// the challenge, or one at the key (Yang, Sarkar, Weng and Wang, QuickSilver, ACM CCS 2021).
pub fn found_shows_outputs()
    ensures { FoundShowsOutputs }
{}

/// What is found in the log of an accepted session is the one finding of that session.
pub fn one_answer()
    ensures { OneAnswer }
{}
