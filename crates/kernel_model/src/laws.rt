//! Laws of the kernel. Each is the contract of a function that does nothing.

ghost use Rattle.kernel_model.specs.Laws.{StepsByCases, CasesAreSteps, RefusedChangesNothing, KilledEndsTheCaller, ProgramsStay, WorldsStay, ToldStays, ForkShares, CloneGivesACopy, UnshareGivesACopy};

/// Each step of the kernel is one of the listed cases, and each case gives the result of the step.
pub fn steps_by_cases()
    ensures each_step_is_a_case { StepsByCases }
    ensures each_case_is_the_step { CasesAreSteps }
{}

/// A refused call changes nothing. A call for which the process is killed ends the process and changes nothing else.
pub fn what_refusals_change()
    ensures refused_changes_nothing { RefusedChangesNothing }
    ensures killed_ends_the_caller { KilledEndsTheCaller }
{}

/// Three things stay, whatever calls follow: programs that are the oldest of every process, the properties of every world, and
/// the kernel's tables of calls and files.
pub fn what_stays()
    ensures oldest_programs { ProgramsStay }
    ensures what_holds_of_worlds { WorldsStay }
    ensures what_is_told { ToldStays }
{}

/// After fork(2), parent and child share a mount table. After clone(2) with CLONE_NEWNS the child has a copy of the table, and
/// after unshare(2) with CLONE_NEWNS the caller has one.
pub fn shared_tables()
    ensures fork_shares { ForkShares }
    ensures clone_gives_a_copy { CloneGivesACopy }
    ensures unshare_gives_a_copy { UnshareGivesACopy }
{}
