//! Laws of allow lists: what a service that may make some calls has in common with two others that may make others.
//!
//! There is no code: the definitions are in specs/, and each function's contract is a law over them. The laws rest on
//! `launcher` for launches and for worlds that differ only in the programs of a launch.

ghost use Rattle.derive_command.specs.trace_profile.allow_laws.Either.{EitherReplies};
ghost use Rattle.derive_command.specs.trace_profile.allow_laws.Launches.{EitherLaunches};

/// If two lists of programs give the same replies to calls that push no program, then so does every list that answers each call
/// like one of the two.
pub fn either_replies()
    ensures replies { EitherReplies }
{}

/// If launches by two lists of programs succeed, then so does the launch by a list that answers each call like one of the two.
/// The three worlds differ only in these programs.
pub fn either_launches()
    ensures launches { EitherLaunches }
{}
