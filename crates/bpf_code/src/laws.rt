// States the laws of programs and stacks. Each is the contract of a function that does nothing.
ghost use Rattle.bpf_code.specs.Refusing.{RefusalsStand};
ghost use Rattle.bpf_code.specs.Tied.{AcceptsByFunction, DecidesByFunction, FittingPrograms};

/// Newer programs cannot allow a call that older programs refuse by plain answers.
pub fn refusals_stand()
    ensures stand { RefusalsStand }
{}

/// Instructions are a program exactly if their numbers fit and they are accepted.
pub fn programs_fit()
    ensures fit_and_accepted { FittingPrograms }
{}

/// The function `program_of` returns a program exactly if the bytes are accepted.
pub fn accepted_by_function()
    ensures gives_what_is_accepted { AcceptsByFunction }
{}

/// The function `decision_on` returns the decision of the programs.
pub fn decided_by_function()
    ensures gives_what_is_decided { DecidesByFunction }
{}
