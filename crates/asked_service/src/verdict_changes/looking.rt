//! What changes of a folder.
ghost use Rattle.std.specs.Prelude.{◌≡◌};
ghost use Rattle.judge.specs.abs_path.Paths.{Path};
ghost use Rattle.asked_service.specs.Asking.{IsAsked, IsRowIn, launch_in};
ghost use Rattle.asked_service.specs.verdict_changes.ByRule.{blind_change, row_change};
ghost use Rattle.asked_service.specs.verdict_changes.Found.{turn_of};

use crate::asking::Asked;
use crate::folders::is_named;
use report_text::Row;

/// What changes of a folder from one launched service to another.
#[derive(Clone, Copy)]
pub enum FolderChange {
    /// It is blind in both or in none; or it is no folder.
    Same,
    /// It was seen, and is blind.
    Hidden,
    /// It was blind, and is seen.
    Shown,
}

// What changes, by whether it was blind and whether it is.
fn turned(was: bool, is: bool) -> FolderChange
    ensures { (folder : Path) → turn_of folder result ≡ blind_change was is folder }
{
    if was {
        if is {
            FolderChange::Same
        } else {
            FolderChange::Shown
        }
    } else if is {
        FolderChange::Hidden
    } else {
        FolderChange::Same
    }
}

/// What changes of a row of the site from one launched service to another over the same tables. It takes no memory.
pub fn folder_change(before: &Asked<'_>, after: &Asked<'_>, row: &Row) -> FolderChange
    requires before { IsAsked before.now }
    requires after { IsAsked after.now }
    requires row_before { IsRowIn before.now row.now }
    requires row_after { IsRowIn after.now row.now }
    ensures by_the_rule { turn_of row.now.path result ≡ row_change (launch_in before.now) (launch_in after.now) row.now }
{
    turned(is_named(before, row), is_named(after, row))
}
