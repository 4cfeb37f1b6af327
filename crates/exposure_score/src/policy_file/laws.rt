//! Laws of policies, each the contract of a function that does nothing.

ghost use Rattle.std.specs.Prelude.{◌≡◌, ℕ, List, Some, Ok, Err};
ghost use Rattle.serde_json.specs.Data.{Members};
ghost use Rattle.exposure_score.specs.declared.policy_file.policy.PolicyTest.{PolicyTest};
ghost use Rattle.exposure_score.specs.declared.policy_file.error.PolicyError.TheVariants.{Field};
ghost use Rattle.exposure_score.specs.policy_file.Policy.{IsPolicy, AreAscending};
ghost use Rattle.exposure_score.specs.policy_file.Reading.{names_of, object_of, policy_of};
ghost use Rattle.exposure_score.specs.policy_file.Exact.{IsFirstFault, AreExactly};

/// A policy that is read has its tests in byte order, and whatever else holds of each policy. Its tests are exactly
/// what the members of the object say.
pub fn accepted_policies()
    ensures holds { (bytes : List ℕ) (tests : List PolicyTest) → policy_of bytes ≡ Ok tests → IsPolicy tests }
    ensures exact_tests { (bytes : List ℕ) (members : Members) (tests : List PolicyTest) → object_of bytes ≡ Some members
        → policy_of bytes ≡ Ok tests → AreExactly members tests }
{}

/// Members are in byte order of their names. So the error names the first member in that order that is not a test.
pub fn byte_order()
    ensures ascending { (bytes : List ℕ) (members : Members) → object_of bytes ≡ Some members
        → AreAscending (names_of members) }
    ensures first_fault { (bytes : List ℕ) (members : Members) (id : List ℕ) → object_of bytes ≡ Some members
        → policy_of bytes ≡ Err (Field id) → IsFirstFault members id }
{}
