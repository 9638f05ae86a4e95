// What holds of every journal that commands leave.
ghost use Rattle.file_commands.specs.Laws.{JournalsStayTidy};

/// What a run leaves of a journal that was dealt, at any moment, is tidy, so that the next run may open or migrate it.
pub fn journals_stay_tidy()
    ensures { JournalsStayTidy }
{}
