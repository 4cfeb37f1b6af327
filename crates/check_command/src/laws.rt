//! A law of the command: the function does nothing, and its contract is the law.
ghost use Rattle.check_command.specs.Answers.{OneAnswer};

/// Over the same files and words there is one answer: one refusal, or one outcome.
pub fn one_answer()
    ensures one_refusal_or_outcome { OneAnswer }
{}
