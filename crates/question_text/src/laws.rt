//! The law of printed questions. It is the contract of a function that does nothing.

ghost use Rattle.question_text.specs.Printed.{HaveOneReading};

use report_text::{CallTable, SiteTable};

/// A printed question has one reading: no two questions of the list of a table and a site are printed alike.
pub fn one_reading(calls: &CallTable, site: &SiteTable)
    ensures one_reading { HaveOneReading calls.now site.now }
{
    // These calls say what holds of the names of each table and of the paths of each site.
    let _families = calls.families();
    let _rows = site.rows();
}
