//! Laws of mount tables, each the contract of a function that does nothing.

pub mod changes;
pub mod locks;

ghost use Rattle.std.specs.Prelude.{◌≡◌, ℕ, true, false, List, ◌∷◌, [], ◌++◌, map, Bool, Option, Some, slice_get, Contains};
ghost use Rattle.abs_path.specs.Paths.{Path};
ghost use Rattle.abs_path.specs.Prefix.{is_prefix};
ghost use Rattle.abs_path.specs.ByteOrder.{AreAscending};
ghost use Rattle.kern_mounts.specs.declared.step.MountStep.{MountStep};
ghost use Rattle.kern_mounts.specs.declared.step.What.TheVariants.{Empty, Hidden};
ghost use Rattle.linux_numbers.specs.Errnos.{enoent, eacces};
ghost use Rattle.kern_mounts.specs.Table.{start, IsTable};
ghost use Rattle.kern_mounts.specs.Entry.{Belongs, entry_of};
ghost use Rattle.kern_mounts.specs.Launch.{CanBeMounted, NoneTwice, mounted};
ghost use Rattle.kern_mounts.specs.Finds.{host_place, finds, row_or_nothing, empty_directory, nothing};

/// Each path belongs to exactly one entry of a table. `entry_of` gives that entry, and `Belongs` gives its number.
pub fn entry_of_a_path()
    ensures has_one { (table : List MountStep) (path : Path)
        → IsTable table → (at : ℕ) × Belongs table path at }
    ensures has_no_other { (table : List MountStep) (path : Path) (one other : ℕ)
        → Belongs table path one → Belongs table path other → one ≡ other }
    ensures number_and_entry { (table : List MountStep) (path : Path) (at : ℕ)
        → Belongs table path at → slice_get table at ≡ entry_of table path }
    ensures has_a_number { (table : List MountStep) (path : Path) (step : MountStep)
        → entry_of table path ≡ Some step → (at : ℕ) × Belongs table path at }
{}

/// A new entry covers what the table showed at its mount point and below, and changes nothing elsewhere.
pub fn added_entries()
    ensures at_its_place_and_below { (table : List MountStep) (step : MountStep) (path : Path)
        → is_prefix step.place path ≡ true → entry_of (table ++ step ∷ []) path ≡ Some step }
    ensures elsewhere { (table : List MountStep) (step : MountStep) (path : Path)
        → is_prefix step.place path ≡ false
        → entry_of (table ++ step ∷ []) path ≡ entry_of table path }
{}

/// The mount point of a path's entry leads to the path. If the mount points are in ascending byte order, no longer one leads to
/// it.
pub fn places()
    ensures leads_to_the_path { (table : List MountStep) (path : Path) (step : MountStep)
        → entry_of table path ≡ Some step → is_prefix step.place path ≡ true }
    ensures longest_where_ascending { (table : List MountStep) (path : Path) (step other : MountStep)
        → AreAscending (map (λ entry. entry.place) table) → entry_of table path ≡ Some step
        → Contains table other → is_prefix other.place path ≡ true
        → is_prefix other.place step.place ≡ true }
{}

/// What a path lookup finds. `rows` gives the number of the site's row for a path of the host.
pub fn finding()
    ensures the_host_at_the_start { (rows : Path → Option ℕ) (path : Path)
        → finds rows start path ≡ row_or_nothing (rows path) }
    ensures the_row_at_its_host_place { (rows : Path → Option ℕ) (table : List MountStep) (path place : Path)
        → host_place table path ≡ Some place → finds rows table path ≡ row_or_nothing (rows place) }
    ensures an_empty_directory { (rows : Path → Option ℕ) (table : List MountStep) (step : MountStep)
        → entry_of table step.place ≡ Some step → step.what ≡ Empty
        → finds rows table step.place ≡ empty_directory }
    ensures nothing_below_an_empty_directory { (rows : Path → Option ℕ) (table : List MountStep) (path : Path) (step : MountStep)
        → entry_of table path ≡ Some step → step.what ≡ Empty → (step.place ≡ path → ⊥)
        → finds rows table path ≡ nothing enoent }
    ensures no_access_to_what_is_hidden { (rows : Path → Option ℕ) (table : List MountStep) (path : Path) (step : MountStep) (directory : Bool)
        → entry_of table path ≡ Some step → step.what ≡ Hidden directory
        → finds rows table path ≡ nothing eacces }
{}

/// A table that can be mounted is a table of the kernel. Mounting it step by step makes exactly this table, and no two steps
/// use the same mount point.
pub fn mounted_tables()
    ensures is_a_table { (rows : Path → Option Bool) (table : List MountStep)
        → CanBeMounted rows table → IsTable table }
    ensures mounting_makes_it { (rows : Path → Option Bool) (table : List MountStep)
        → CanBeMounted rows table → mounted table ≡ table }
    ensures no_place_twice { (rows : Path → Option Bool) (table : List MountStep)
        → CanBeMounted rows table → NoneTwice (map (λ step. step.place) table) }
{}
