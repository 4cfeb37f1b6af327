//! LockPersonality=: the execution domain stays as it is.
ghost use Rattle.std.specs.Prelude.{◌≡◌, IfOk, map};
ghost use Rattle.filter_settings.specs.filter_rules.Choices.{whole};
ghost use Rattle.filter_settings.specs.filter_rules.Personality.{number_of};
ghost use Rattle.filter_settings.specs.filter_rules.PersonalityChoice.{permitted_values, personality_choice};

use crate::filter_rules::choice::{Choice, allowed_values, whole};
use call_rules::Tests;
use dropin_merge::Version;
use std::alloc::{AllocError, Global};

/// PER_LINUX, personality(2).
const PER_LINUX: u32 = 0;

/// PER_LINUX32, personality(2).
const PER_LINUX32: u32 = 8;

/// The value that asks for the domain and changes nothing, personality(2).
const ASKS_ONLY: u32 = 0xffff_ffff;

/// An execution domain of personality(2) that Personality= can set (systemd.exec(5)).
#[derive(Clone, Copy)]
pub enum Domain {
    /// PER_LINUX, for programs of the native architecture.
    Linux,
    /// PER_LINUX32, for programs of 32 bits on a machine of 64.
    Linux32,
}

impl Domain {
    // The number of the domain.
    fn number(self) -> u32
        ensures { result ≡ number_of self }
    {
        match self {
            Domain::Linux => PER_LINUX,
            Domain::Linux32 => PER_LINUX32,
        }
    }
}

// The tests that argument 0 is a value that is permitted.
fn permitted_tests(
    alloc: Global,
    systemd: Option<Version>,
    domain: Domain,
) -> Result<Tests, AllocError>
    ensures { IfOk result (λ tests. tests ≡ map (whole 0) (permitted_values systemd domain)) }
{
    let mut tests = Vec::new(alloc);
    if systemd.is_some() {
        tests.push(whole(0, domain.number()))?;
    } else {
        tests.push(whole(0, PER_LINUX))?;
        tests.push(whole(0, ASKS_ONLY))?;
    }
    Ok(Tests::new(tests))
}

/// Returns what is done to a call of this name, where it sets the domain, which is argument 0.
pub fn personality_choice(
    alloc: Global,
    systemd: Option<Version>,
    domain: Domain,
    name: &str,
) -> Result<Option<Choice>, AllocError>
    ensures by_the_call { IfOk result (λ choice. choice ≡ personality_choice systemd domain name.now) }
{
    if name != "personality" {
        return Ok(None);
    }
    let tests = permitted_tests(alloc, systemd, domain)?;
    Ok(Some(allowed_values(systemd, 0, tests)))
}
