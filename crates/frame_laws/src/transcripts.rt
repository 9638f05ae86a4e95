// Laws of what a log determines.
ghost use Rattle.frame_laws.specs.Transcripts.{OneTranscript};

/// A log is the spelling of one transcript at most.
pub fn one_transcript()
    ensures { OneTranscript }
{}
