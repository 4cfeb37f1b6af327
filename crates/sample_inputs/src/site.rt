//! Makes the site of a sample.

ghost use Rattle.std.specs.Prelude.{◌≡◌, ◌≤◌, ◌<◌, IfOk, map, string_bytes, Some};
ghost use Rattle.launcher.specs.site_table.declared.error.SiteError.TheVariants.{Memory};
ghost use Rattle.toml.specs.Data.{table};
ghost use Rattle.toml.specs.Parse.{parse_document};
ghost use Rattle.toml.specs.View.{table_view, view};
ghost use Rattle.toml.specs.declared.ser.error.Error.TheVariants.{OutOfMemory};
ghost use Rattle.sample_inputs.specs.Facts.{HasSampleRows};
ghost use Rattle.sample_inputs.specs.Made.{IsSampleSite};
ghost use Rattle.sample_inputs.specs.Site.{group_row, site_groups, site_rows, site_tree, site_users, user_row};

use crate::rows::{plain_row, push_folder, put};
use launcher::{SiteError, SiteTable, read_site};
use std::alloc::{AllocError, Global};
use toml::{Table, Value};

/// The number of folders of a site.
pub const FOLDERS: u32 = 16;

// The rows.
fn rows(alloc: Global, n: u32) -> Result<Vec<Value>, AllocError>
    requires { n ≤ 999 }
    ensures { IfOk result (λ rows. map view rows.items ≡ site_rows n) }
{
    let mut rows = Vec::new(alloc);
    rows.push(plain_row(alloc, "dir", "/usr")?)?;
    rows.push(plain_row(alloc, "dir", "/usr/bin")?)?;
    rows.push(plain_row(alloc, "exe", "/usr/bin/app")?)?;
    for folder in 0..FOLDERS {
        push_folder(alloc, &mut rows, n, folder)?;
    }
    Ok(rows)
}

// The table of a group (group(5)).
fn group_table(alloc: Global, name: &str, id: u32) -> Result<Table, AllocError>
    ensures { IfOk result (λ group. table (table_view group) ≡ group_row name.now id) }
{
    let mut group = Table::new(alloc);
    put(alloc, &mut group, "gid", Value::Integer(i64::from(id)))?;
    put(alloc, &mut group, "name", Value::string(alloc, name)?)?;
    Ok(group)
}

// The row of a group.
fn group_row(alloc: Global, name: &str, id: u32) -> Result<Value, AllocError>
    ensures { IfOk result (λ group. view group ≡ group_row name.now id) }
{
    Ok(Value::Table(group_table(alloc, name, id)?))
}

// The row of a user whose group has the same id (passwd(5)).
fn user_row(alloc: Global, name: &str, id: u32) -> Result<Value, AllocError>
    ensures { IfOk result (λ user. view user ≡ user_row name.now id) }
{
    let mut user = group_table(alloc, name, id)?;
    put(alloc, &mut user, "uid", Value::Integer(i64::from(id)))?;
    Ok(Value::Table(user))
}

// The groups.
fn groups(alloc: Global) -> Result<Vec<Value>, AllocError>
    ensures { IfOk result (λ groups. map view groups.items ≡ site_groups) }
{
    let mut groups = Vec::new(alloc);
    groups.push(group_row(alloc, "root", 0)?)?;
    groups.push(group_row(alloc, "app", 100)?)?;
    Ok(groups)
}

// The users.
fn users(alloc: Global) -> Result<Vec<Value>, AllocError>
    ensures { IfOk result (λ users. map view users.items ≡ site_users) }
{
    let mut users = Vec::new(alloc);
    users.push(user_row(alloc, "root", 0)?)?;
    users.push(user_row(alloc, "app", 100)?)?;
    Ok(users)
}

// The site as a tree.
fn site_tree(alloc: Global, n: u32) -> Result<Table, AllocError>
    requires { n ≤ 999 }
    ensures { IfOk result (λ site. table_view site ≡ site_tree n) }
{
    let mut site = Table::new(alloc);
    put(alloc, &mut site, "dynamic_uid", Value::Integer(61184))?;
    put(alloc, &mut site, "group", Value::Array(groups(alloc)?))?;
    put(alloc, &mut site, "row", Value::Array(rows(alloc, n)?))?;
    put(alloc, &mut site, "user", Value::Array(users(alloc)?))?;
    Ok(site)
}

// A tree without dates is printed, unless memory runs out.
fn printing_memory(_error: toml::ser::Error) -> AllocError
    requires { _error ≡ OutOfMemory }
{
    AllocError
}

// The text of the site.
fn site_text(alloc: Global, n: u32) -> Result<String, AllocError>
    requires { n ≤ 999 }
    ensures { IfOk result (λ text. parse_document (string_bytes text) ≡ Some (site_tree n)) }
{
    let tree = site_tree(alloc, n)?;
    match toml::table_to_string(alloc, &tree) {
        Ok(text) => Ok(text),
        Err(error) => Err(printing_memory(error)),
    }
}

// A text that is a site is refused only if memory runs out.
fn of_memory(_error: SiteError) -> AllocError
    requires { _error ≡ Memory }
{
    AllocError
}

/// The site of a sample, of a number below 1,000.
pub fn sample_site(alloc: Global, n: u32) -> Result<Box<SiteTable>, AllocError>
    requires { n ≤ 999 }
    ensures read { IfOk result (λ site. IsSampleSite n site.value) }
    ensures rows { IfOk result (λ site. HasSampleRows site.value) }
{
    let text = site_text(alloc, n)?;
    match read_site(alloc, text.as_str().as_bytes()) {
        Ok(site) => Ok(Box::new(alloc, site)?),
        Err(error) => Err(of_memory(error)),
    }
}
