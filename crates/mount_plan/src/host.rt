//! Looks up the rows of the site.

ghost use Rattle.std.specs.Prelude.{◌≡◌, ◌++◌, option_map, true};
ghost use Rattle.path_settings.specs.abs_path.Prefix.{is_prefix, rest_of};
ghost use Rattle.site_table.specs.Kinds.{is_dir};
ghost use Rattle.mount_plan.specs.Host.{host_of};

use abs_path::AbsPath;
use site_table::{Row, RowKind, SiteTable};

// Returns whether a row, if there is one, is a directory.
fn is_dir(row: Option<&Row>) -> Option<bool>
    ensures { result ≡ option_map is_dir (option_map (λ row. row.kind) (option_map (λ row. row.now) row.entry)) }
{
    match row {
        None => None,
        Some(row) => Some(matches!(row.kind, RowKind::Dir)),
    }
}

/// Returns whether the site has a row at the path if `source` replaces its prefix `front`, and then whether it is a
/// directory.
pub fn row_through(
    site: &SiteTable,
    source: &AbsPath,
    front: &AbsPath,
    path: &AbsPath,
) -> Option<bool>
    requires { is_prefix front.now path.now ≡ true }
    ensures by_the_source { result ≡ host_of site.now (source.now ++ rest_of front.now path.now) }
{
    is_dir(site.row_through(source, front, path))
}

/// Returns whether the site has a row at the path, and then whether it is a directory.
pub fn row_at(site: &SiteTable, path: &AbsPath) -> Option<bool>
    ensures of_the_site { result ≡ host_of site.now path.now }
{
    is_dir(site.row_behind(path, ""))
}
