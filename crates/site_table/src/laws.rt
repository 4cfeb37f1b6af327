//! States the laws of sites. Each is the contract of a function that does nothing.

ghost use Rattle.std.specs.Prelude.{◌≡◌, ◌≤◌, ◌↔◌, ℕ, true, List, Some, None, Ok, slice_get};
ghost use Rattle.toml.specs.Data.{Data, Members, table};
ghost use Rattle.abs_path.specs.Paths.{Path};
ghost use Rattle.cap_sets.specs.Sets.{has};
ghost use Rattle.site_table.specs.declared.row.Row.{Row};
ghost use Rattle.site_table.specs.Caps.{IsNamed};
ghost use Rattle.site_table.specs.Exact.{AreExactly};
ghost use Rattle.site_table.specs.Reading.{rows_in, tree_of, site_of};
ghost use Rattle.site_table.specs.Rows.{cap_names, row_of};
ghost use Rattle.site_table.specs.Table.{Site, IsSite, row_at, place_of};

/// The place of a path is the place of its row.
pub fn place_and_row()
    ensures row_of_the_place { (rows : List Row) (path : Path) (at : ℕ)
        → place_of rows path ≡ Some at → slice_get rows at ≡ row_at rows path }
    ensures no_place_no_row { (rows : List Row) (path : Path)
        → place_of rows path ≡ None → row_at rows path ≡ None }
{}

/// A site that is read has its rows in byte order, each with its folder, and has all other properties of a site. Its rows are
/// exactly the listed rows, `/` and `/proc`.
pub fn accepted_sites()
    ensures holds { (bytes : List ℕ) (site : Site) → site_of bytes ≡ Ok site → IsSite site }
    ensures exact_rows { (bytes : List ℕ) (members : Members) (site : Site) → tree_of bytes ≡ Some members
        → site_of bytes ≡ Ok site → AreExactly (rows_in (table members)) site.rows }
{}

/// A capability is in the set of a row exactly if the row's list names it.
pub fn caps_of_rows()
    ensures named { (row : Data) (number : ℕ) → number ≤ 40
        → (has (row_of row).caps number ≡ true) ↔ IsNamed (cap_names row) number }
    ensures no_other { (row : Data) (number : ℕ) → has (row_of row).caps number ≡ true → number ≤ 40 }
{}
