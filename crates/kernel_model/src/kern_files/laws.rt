//! Laws of calls on paths. Each is the contract of a function that does nothing.

ghost use Rattle.std.specs.Prelude.{◌≡◌, ◌↔◌, ◌⊎◌, ◌==◌, ◌||◌, ℕ, Bool, true, false, [], Option, Ok, Err};
ghost use Rattle.site_table.specs.abs_path.Paths.{Path};
ghost use Rattle.kern_mounts.specs.linux_numbers.Errnos.{eacces, ebusy, einval, enotdir};
ghost use Rattle.site_table.specs.declared.row.Row.{Row};
ghost use Rattle.kern_mounts.specs.Finds.{finds};
ghost use Rattle.kern_mounts.specs.Split.{Table};
ghost use Rattle.kernel_model.specs.declared.kern_files.program.Program.{Program};
ghost use Rattle.kernel_model.specs.kern_files.Bits.{has_some, has_all};
ghost use Rattle.kernel_model.specs.kern_files.Looking.{access_mode, flags_at, see_answer, write_answer, open_answer};
ghost use Rattle.kernel_model.specs.kern_files.Executing.{program_answer};
ghost use Rattle.kernel_model.specs.kern_files.MountCall.{ms_bind, ms_remount, ms_remount_bind, has_other_kind, target_kind, after_mount};
ghost use Rattle.kernel_model.specs.kern_files.UmountCall.{mnt_detach, umount_answer};
ghost use Rattle.kern_mounts.specs.Mounts.{Mounts, steps_of, ArePlain};
ghost use Rattle.kern_mounts.specs.Changes.{Changes};
ghost use Rattle.kernel_model.specs.kern_files.There.{ShowsRow, IsEmptyPlace, IsHidden, IsWritableFile, IsProgram};

/// A process can see a path if and only if the path shows a file of the host or is the place of an empty file system.
pub fn what_is_seen()
    ensures files_and_empty_places { (rows : Path → Option Row) (table : Table) (path : Path) (value : ℕ)
        → (see_answer value (finds rows table path) ≡ Ok value)
        ↔ (((found : Row) × ShowsRow rows table path found) ⊎ IsEmptyPlace table path) }
{}

/// A process can write a path if and only if it shows a file of the host that is not a directory. Unless the file is a device,
/// the mount must not be read-only.
pub fn what_may_be_written()
    ensures files_on_writable_mounts { (rows : Path → Option Row) (table : Table) (path : Path) (value : ℕ)
        → (write_answer value (flags_at table path) (finds rows table path) ≡ Ok value)
        ↔ IsWritableFile rows table path }
{}

/// A process can execute a path if and only if it shows an executable file of the host, on a mount without noexec. execve(2)
/// then reads that file's marks and the mount's nosuid flag.
pub fn what_may_be_executed()
    ensures programs_where_they_may_run { (rows : Path → Option Row) (table : Table) (path : Path) (program : Program)
        → (program_answer (flags_at table path) (finds rows table path) ≡ Ok program)
        ↔ IsProgram rows table path program }
{}

/// A path of a hidden mount cannot be seen, opened, written, executed or bound elsewhere. The call fails with EACCES, unless
/// its other arguments are wrong.
pub fn what_is_hidden()
    ensures not_seen { (rows : Path → Option Row) (table : Table) (path : Path) (value : ℕ)
        → IsHidden table path → see_answer value (finds rows table path) ≡ Err eacces }
    ensures not_written { (rows : Path → Option Row) (table : Table) (path : Path) (value : ℕ)
        → IsHidden table path → write_answer value (flags_at table path) (finds rows table path) ≡ Err eacces }
    ensures not_opened { (rows : Path → Option Row) (table : Table) (path : Path) (flags : ℕ)
        → IsHidden table path → (access_mode flags == 3) ≡ false
        → open_answer flags (flags_at table path) (finds rows table path) ≡ Err eacces }
    ensures not_executed { (rows : Path → Option Row) (table : Table) (path : Path)
        → IsHidden table path → program_answer (flags_at table path) (finds rows table path) ≡ Err eacces }
    ensures not_bound { (rows : Path → Option Row) (mounts : Mounts) (source target : Path) (flags : ℕ) (directory : Bool)
        → IsHidden (steps_of mounts) source → has_other_kind flags ≡ false → has_some ms_remount flags ≡ false
        → has_some ms_bind flags ≡ true → (target ≡ [] → ⊥) → target_kind rows (steps_of mounts) target ≡ Ok directory
        → after_mount rows mounts source target flags ≡ Err eacces }
{}

/// The errors of mount(2) before it looks at a path, in order; and ENOTDIR for a file system on a file.
pub fn order_of_mount()
    ensures other_kinds_first { (rows : Path → Option Row) (mounts : Mounts) (source target : Path) (flags : ℕ)
        → has_other_kind flags ≡ true → after_mount rows mounts source target flags ≡ Err einval }
    ensures remount_of_a_single_mount_alone { (rows : Path → Option Row) (mounts : Mounts) (source target : Path) (flags : ℕ)
        → has_some ms_remount flags ≡ true → has_all ms_remount_bind flags ≡ false
        → after_mount rows mounts source target flags ≡ Err einval }
    ensures root_is_busy { (rows : Path → Option Row) (mounts : Mounts) (source : Path) (flags : ℕ)
        → has_other_kind flags ≡ false → has_some ms_remount flags ≡ false
        → after_mount rows mounts source [] flags ≡ Err ebusy }
    ensures no_file_system_on_a_file { (rows : Path → Option Row) (mounts : Mounts) (source target : Path) (flags : ℕ)
        → has_other_kind flags ≡ false → has_some ms_remount flags ≡ false
        → has_some ms_bind flags ≡ false → (target ≡ [] → ⊥) → target_kind rows (steps_of mounts) target ≡ Ok false
        → after_mount rows mounts source target flags ≡ Err enotdir }
{}

/// umount2(2) accepts no flag but MNT_DETACH, and cannot unmount the root.
pub fn limits_of_umount()
    ensures no_other_flags { (mounts : Mounts) (path : Path) (flags : ℕ)
        → (flags == 0 || flags == mnt_detach) ≡ false → umount_answer mounts path flags ≡ Err einval }
    ensures root_stays { (mounts : Mounts) (flags : ℕ) → umount_answer mounts [] flags ≡ Err einval }
{}

/// Each successful call of mount(2) or umount2(2) is one of the changes that keep mounts backed.
pub fn changes_of_mounts()
    ensures mount { (rows : Path → Option Row) (mounts next : Mounts) (source target : Path) (flags : ℕ)
        → after_mount rows mounts source target flags ≡ Ok next → Changes mounts next }
    ensures umount { (mounts next : Mounts) (path : Path) (flags : ℕ)
        → umount_answer mounts path flags ≡ Ok next → Changes mounts next }
{}

/// If no mount is locked and none keeps a flag, as in the table of a launched service, every successful call leaves it so.
pub fn calls_on_plain_mounts()
    ensures mounted { (rows : Path → Option Row) (mounts next : Mounts) (source target : Path) (flags : ℕ) → ArePlain mounts
        → after_mount rows mounts source target flags ≡ Ok next → ArePlain next }
    ensures umounted { (mounts next : Mounts) (path : Path) (flags : ℕ) → ArePlain mounts
        → umount_answer mounts path flags ≡ Ok next → ArePlain next }
{}
