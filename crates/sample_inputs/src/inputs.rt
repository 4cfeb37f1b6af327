//! The inputs of a sample.

ghost use Rattle.std.specs.Prelude.{◌≡◌, ◌≤◌, IfOk};
ghost use Rattle.sample_inputs.specs.CallTable.{sample_table};
ghost use Rattle.sample_inputs.specs.Facts.{HasSampleRows, SaysSample};
ghost use Rattle.sample_inputs.specs.Made.{IsSample};

use crate::calls::sample_calls;
use crate::site::sample_site;
use crate::unit::sample_unit;
use launcher::{CallTable, Resolved, SiteTable};
use std::alloc::{AllocError, Global};

/// The inputs of a sample, as a command on a unit reads them.
#[derive(Drop)]
pub struct SampleInputs {
    /// The unit with its one file.
    pub unit: Box<Resolved>,
    /// The table of system calls.
    pub calls: Box<CallTable>,
    /// The site.
    pub site: Box<SiteTable>,
}

/// Makes the inputs of the sample of a number below 1,000.
///
/// The texts of the unit, of the calls and of the site are made and read, and each is accepted. The call fails only
/// if memory runs out.
pub fn made(alloc: Global, n: u32) -> Result<SampleInputs, AllocError>
    requires below { n ≤ 999 }
    ensures reads_the_texts { IfOk result (λ inputs. IsSample n inputs.unit.value inputs.calls.value inputs.site.value) }
    ensures unit_says { IfOk result (λ inputs. SaysSample n inputs.unit.value) }
    ensures calls_table { IfOk result (λ inputs. inputs.calls.value ≡ sample_table) }
    ensures site_rows { IfOk result (λ inputs. HasSampleRows inputs.site.value) }
{
    let unit = sample_unit(alloc, n)?;
    let calls = sample_calls(alloc)?;
    let site = sample_site(alloc, n)?;
    Ok(SampleInputs { unit, calls, site })
}
