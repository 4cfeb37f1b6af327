//! Finds the folders of a site to which a launched service is blind.
ghost use Rattle.std.specs.Prelude.{◌≡◌};
ghost use Rattle.asked_service.specs.Asking.{IsAsked, IsRowIn, is_named};

use crate::asking::Asked;
use judge::blind;
use report_text::{Row, RowKind};

/// Whether a row is a folder that is blind. It takes no memory.
pub fn is_named(asked: &Asked<'_>, row: &Row) -> bool
    requires asked { IsAsked asked.now }
    requires row { IsRowIn asked.now row.now }
    ensures by_the_rule { result ≡ is_named asked.now row.now }
{
    match row.kind {
        RowKind::Dir => blind(&asked.bounded.service, &asked.bounded.ceiling, &row.path),
        RowKind::File | RowKind::Exe | RowKind::Dev => false,
    }
}
