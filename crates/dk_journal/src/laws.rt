//! Laws of sessions and of openings. Each is the contract of a function that does nothing.
ghost use Rattle.dk_journal.specs.Crashes.{CrashesLeaveFronts};
ghost use Rattle.dk_journal.specs.Openings.{RefusalsAreOne, RefusedFilesAreNotOpened};
ghost use Rattle.dk_journal.specs.Sessions.{ChainsKeepEntries, ChainsKeepResults};

/// In a chain of sessions each run finds what stood before an earlier one, and what was safe in it.
pub fn chains_keep_entries()
    ensures { ChainsKeepEntries }
{}

/// Once a run told how the study ended, each later run finds it so, appends nothing, and tells nothing else.
pub fn chains_keep_results()
    ensures { ChainsKeepResults }
{}

/// What a crash leaves of a covered call has what was safe in it.
pub fn crashes_leave_fronts()
    ensures { CrashesLeaveFronts }
{}

/// At most one test of an opening is the first that fails.
pub fn refusals_are_one()
    ensures { RefusalsAreOne }
{}

/// A file of which a test fails isn't opened over any entries.
pub fn refused_files_are_not_opened()
    ensures { RefusedFilesAreNotOpened }
{}
