//! Reads a site, from its bytes to its table.

ghost use Rattle.std.specs.Prelude.{◌≡◌, ◌≢◌, Ok, Err, IfOk, IfErr, ◌||◌};
ghost use Rattle.toml.specs.View.{view};
ghost use Rattle.site_table.specs.declared.error.SiteError.TheVariants.{Memory};
ghost use Rattle.site_table.specs.Reading.{IsUnlessMemory, unless_fault, faults_of, site_in, site_of, SaysTop, is_too_large};

use crate::error::SiteError;
use crate::ids::{id_at, spaces_at};
use crate::keys::TOP_KEYS;
use crate::owners::{read_groups, read_users};
use crate::rings::rings_at;
use crate::rows::read_rows;
use crate::table::SiteTable;
use crate::versions::systemd_at;
use std::alloc::Global;
use toml::Value;
use toml_shapes::{elements_at, has_keys};
use unit_names::Version;

/// The most rows that a site may list.
const MOST_ROWS: usize = 2048;
/// The most users that a site may list.
const MOST_USERS: usize = 512;
/// The most groups that a site may list.
const MOST_GROUPS: usize = 512;

// returns the dynamic uid, the number of user namespaces, and the version of systemd, if the top keys have no fault
fn read_top(site: &Value) -> Option<(u32, u32, Option<Version>)>
    ensures { SaysTop (view site.now) result }
{
    if !has_keys(&TOP_KEYS, site) {
        return None;
    }
    let uid = id_at(site, "dynamic_uid")?;
    let spaces = spaces_at(site)?;
    let systemd = systemd_at(site)?;
    Some((uid, spaces, systemd))
}

// returns whether a site has too many rows, users or groups
fn is_too_large(site: &Value) -> bool
    ensures { result ≡ is_too_large (view site.now) }
{
    elements_at(site, "row").len() > MOST_ROWS
        || elements_at(site, "user").len() > MOST_USERS
        || elements_at(site, "group").len() > MOST_GROUPS
}

// returns the site that the tree describes
fn read_tree(alloc: Global, site: &Value) -> Result<SiteTable, SiteError>
    ensures { IsUnlessMemory (λ table. table) result
        (unless_fault (faults_of (view site.now)) (site_in (view site.now))) }
{
    let Some((dynamic_uid, user_namespaces, systemd)) = read_top(site) else {
        return Err(SiteError::Top);
    };
    if is_too_large(site) {
        return Err(SiteError::TooMany);
    }
    let rows = read_rows(alloc, elements_at(site, "row"))?;
    let users = read_users(alloc, elements_at(site, "user"))?;
    let groups = read_groups(alloc, elements_at(site, "group"))?;
    let io_uring = rings_at(site);
    Ok(SiteTable::new(
        dynamic_uid,
        user_namespaces,
        systemd,
        io_uring,
        rows,
        users,
        groups,
    ))
}

// returns the site that the bytes describe
fn read_bytes(alloc: Global, bytes: &[u8]) -> Result<SiteTable, SiteError>
    ensures { IsUnlessMemory (λ table. table) result (site_of bytes.now) }
{
    match toml::table_from_slice(alloc, bytes) {
        Ok(table) => read_tree(alloc, &Value::Table(table)),
        Err(error) => {
            if error.is_memory() {
                Err(SiteError::Memory)
            } else {
                Err(SiteError::NotToml)
            }
        }
    }
}

/// Reads the description of a site.
///
/// The top keys are `dynamic_uid`, a number, `user_namespaces`, a number from 0 to 64, `systemd`, which is 252 or 257,
/// `io_uring`, a boolean, and the arrays of tables `row`, `user` and `group`. All but the first may be missing. The tables have
/// these keys:
/// - A row has a `path` and a `kind`, which is `dir`, `file`, `exe` or `dev`. An exe may have `setuid` and `setgid`, its
///   owner's uid and its group's gid. It may also have `caps`, a list of names of capabilities, with a boolean
///   `effective`.
/// - A user has `name`, `uid` and `gid`, and may have `groups`, a list of gids.
/// - A group has `name` and `gid`.
///
/// Ids are numbers from 0 to 4,294,967,294.
///
/// `/` and `/proc` are rows of kind dir even if they are not listed. Each row is in a folder that is a row of kind
/// dir, listed before or after it.
///
/// It returns `NotToml` if the bytes are no TOML. Otherwise it returns the first of these: `Top`, `TooMany`, the first row with a
/// fault, the first user with one, and the first group with one. It may return `Memory` for any bytes.
pub fn read_site(alloc: Global, bytes: &[u8]) -> Result<SiteTable, SiteError>
    ensures reads_the_site { IfOk result (λ site. site_of bytes.now ≡ Ok site) }
    ensures first_fault { IfErr result (λ error. error ≢ Memory → site_of bytes.now ≡ Err error) }
{
    read_bytes(alloc, bytes)
}
