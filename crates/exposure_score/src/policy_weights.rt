//! The weight of a policy, which is the same for every service.
//!
//! A test of a policy counts if the settings decide it (by the table of calls) or a stored test does. The other tests are
//! skipped. So the same tests count for all services. `service_facts` has the tests that settings decide, and `policy_file` and
//! `exposure_score` have policies and stored tests.
//!
//! `weighs(&calls, &policy, &tests)` is false if the policy can score no service.

mod weighing;

pub use weighing::weighs;
