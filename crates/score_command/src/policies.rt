//! The policy, with the lines of its refusals.
ghost use Rattle.std.specs.Prelude.{◌≡◌, ◌∷◌, [], IfOk, IsErrOf};
ghost use Rattle.unit_inputs.specs.host_io.Agreeing.{ForFiles};
ghost use Rattle.unit_inputs.specs.host_io.Calls.{AsksExactly};
ghost use Rattle.unit_inputs.specs.command_answers.Asking.{course, input_file};
ghost use Rattle.unit_inputs.specs.command_answers.CommandErrors.{HasReadCause, IsAnswer};
ghost use Rattle.score_command.specs.Policies.{policy_cause, policy_in, policy_line, policy_said};

use host_io::Shelf;
use report_text::{Policy, PolicyError, TestId, read_policy as read_bytes};
use std::alloc::{AllocError, Global};
use unit_inputs::command_answers::{CommandError, refuse, refused_line};
use unit_inputs::{push_word, read_input};

// Names the member that is not a test.
fn test_cause(alloc: Global, id: &TestId) -> Result<Vec<u8>, AllocError>
    ensures { IfOk result (λ why. why.items ≡ policy_cause (PolicyError.Field id.now)) }
{
    let mut why = b"test ".to_vec(alloc)?;
    push_word(&mut why, id.as_str())?;
    Ok(why)
}

// Why a policy is refused.
fn policy_cause(alloc: Global, error: &PolicyError) -> Result<Vec<u8>, AllocError>
    ensures { IfOk result (λ why. why.items ≡ policy_cause error.now) }
{
    match error {
        PolicyError::NotJson => b"json".to_vec(alloc),
        PolicyError::Field(id) => test_cause(alloc, id),
        PolicyError::TooMany => b"too-many".to_vec(alloc),
        PolicyError::Memory => Ok(Vec::new(alloc)),
    }
}

// The line of a policy that is refused.
fn policy_line(alloc: Global, path: &str, error: &PolicyError) -> Result<Vec<u8>, AllocError>
    ensures { IfOk result (λ line. line.items ≡ policy_line path.now error.now) }
{
    let why = policy_cause(alloc, error)?;
    refused_line(alloc, path, why.as_slice())
}

// The policy that some bytes are.
#[tactic(auto, unfolding(crate::specs::Policies::policy_said))]
fn policy_of_bytes(alloc: Global, path: &str, bytes: &[u8]) -> Result<Policy, CommandError>
    ensures says { IsAnswer (λ policy. policy) result (policy_said path.now bytes.now) }
    ensures reads_nothing { IsErrOf result CommandError.ReadFault → ⊥ }
{
    match read_bytes(alloc, bytes) {
        Ok(policy) => Ok(policy),
        Err(PolicyError::Memory) => Err(CommandError::Memory),
        Err(error) => Err(refuse(policy_line(alloc, path, &error))),
    }
}

/// The policy of a path, or the line of its first refusal.
pub fn read_policy<S: Shelf>(
    alloc: Global,
    shelf: &mut S,
    path: &str,
) -> Result<Policy, CommandError>
    ensures reads_the_policy { ForFiles (S.agrees shelf.new) (λ files. IsAnswer (λ policy. policy) result (policy_in files path.now)) }
    ensures asks_for_it { AsksExactly S.asks shelf.old shelf.new (input_file path.now ∷ []) (course result) }
    ensures answers_stay { ForFiles (S.agrees shelf.new) (S.agrees shelf.old) }
    ensures fault_rose { HasReadCause (S.faults shelf.old) (S.faults shelf.new) result }
{
    let bytes = read_input(alloc, shelf, path)?;
    policy_of_bytes(alloc, path, bytes.as_slice())
}
