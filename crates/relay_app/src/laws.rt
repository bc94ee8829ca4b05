//! Laws of runs, each a function that does nothing and ensures it.
ghost use Rattle.relay_app.specs.Runs.{Answers, AnswersWhole, Command, IsComplete, LeavesTheRest};

/// A run of a command whose report is a function of what was read prints the text of the whole input and answers its
/// first fault, or the report's failure, or `Fine`: where no read failed and no more than the limit was there, unless
/// memory was refused. With `frames` that text has the units of the whole input at its end.
pub fn complete_runs()
    ensures { (c : Command) → IsComplete (Answers c) (AnswersWhole c) }
{}

/// Such a run changes its host by the input that it finished and by the report alone.
pub fn rest_stays()
    ensures { (c : Command) → LeavesTheRest c }
{}
