//! Makes the rows of a site, as tables of TOML.

ghost use Rattle.std.specs.Prelude.{◌≡◌, ◌+◌, ◌*◌, ◌≤◌, ◌<◌, ◌++◌, ◌∷◌, [], IfOk, OnOk, map, string_bytes, pos};
ghost use Rattle.toml.specs.Data.{table};
ghost use Rattle.toml.specs.View.{table_view, view};
ghost use Rattle.sample_inputs.specs.Members.{with_member};
ghost use Rattle.sample_inputs.specs.Site.{folder_rows, numbered_row, numbers_from, object_row, plain_row, setuid_row};

use std::alloc::{AllocError, Global};
use toml::{Table, Value};

/// The number of objects of a folder.
const OBJECTS: u32 = 64;

/// Puts a value into a table.
pub fn put(alloc: Global, table: &mut Table, key: &str, value: Value) -> Result<(), AllocError>
    ensures puts_the_member { OnOk result (table_view table.new ≡ with_member key.now (view value) (table_view table.old)) }
{
    table.insert(String::from_str(alloc, key)?, value)?;
    Ok(())
}

// A row of which the kind and the path are said.
fn plain_table(alloc: Global, kind: &str, path: &str) -> Result<Table, AllocError>
    ensures { IfOk result (λ row. table (table_view row) ≡ plain_row kind.now path.now) }
{
    let mut row = Table::new(alloc);
    put(alloc, &mut row, "kind", Value::string(alloc, kind)?)?;
    put(alloc, &mut row, "path", Value::string(alloc, path)?)?;
    Ok(row)
}

/// The row of a kind and a path.
pub fn plain_row(alloc: Global, kind: &str, path: &str) -> Result<Value, AllocError>
    ensures of_kind_and_path { IfOk result (λ row. view row ≡ plain_row kind.now path.now) }
{
    Ok(Value::Table(plain_table(alloc, kind, path)?))
}

// The row of an executable that is root's and set-user-id (chmod(2)).
fn setuid_row(alloc: Global, path: &str) -> Result<Value, AllocError>
    ensures { IfOk result (λ row. view row ≡ setuid_row path.now 0) }
{
    let mut row = plain_table(alloc, "exe", path)?;
    put(alloc, &mut row, "setuid", Value::Integer(0))?;
    Ok(Value::Table(row))
}

// The row of an object, by its number.
fn numbered_row(alloc: Global, number: u32, path: &str) -> Result<Value, AllocError>
    ensures { IfOk result (λ row. view row ≡ numbered_row number path.now) }
{
    if number % 24 == 0 {
        setuid_row(alloc, path)
    } else if number % 3 == 0 {
        plain_row(alloc, "exe", path)
    } else {
        plain_row(alloc, "file", path)
    }
}

// The row of an object of a folder.
fn object_row(alloc: Global, n: u32, folder: u32, object: u32) -> Result<Value, AllocError>
    requires number { n ≤ 999 }
    requires folder { folder < 16 }
    requires object { object < 64 }
    ensures { IfOk result (λ row. view row ≡ object_row n folder object) }
{
    let path = format!(in alloc; "/d{folder}/f{object}")?;
    numbered_row(alloc, OBJECTS * folder + object + n, path.as_str())
}

/// Appends the row of a folder, and the rows of its objects.
pub fn push_folder(
    alloc: Global,
    rows: &mut Vec<Value>,
    n: u32,
    folder: u32,
) -> Result<(), AllocError>
    requires number { n ≤ 999 }
    requires folder { folder < 16 }
    ensures rows_go_last { OnOk result (map view rows.new.items ≡ map view rows.old.items ++ folder_rows n folder) }
{
    let path = format!(in alloc; "/d{folder}")?;
    rows.push(plain_row(alloc, "dir", path.as_str())?)?;
    for object in 0..OBJECTS {
        rows.push(object_row(alloc, n, folder, object)?)?;
    }
    Ok(())
}
