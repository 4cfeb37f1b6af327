// Lists where the assignments of a service are, so that those to a key are found without a walk over all files.
//
// Each assignment is listed in the bucket of its key. Keys may share a bucket, so a reader still compares the key.
ghost use Rattle.std.specs.Prelude.{◌≡◌, ◌++◌, [], List, Some, get_or, length, replicate, slice_get, IfOk, OnOk};
ghost use Rattle.dropin_merge.specs.declared.resolved.UnitFile.{UnitFile};
ghost use Rattle.dropin_merge.specs.declared.unit_values.value.Place.{Place};
ghost use Rattle.dropin_merge.specs.Spots.{HoldSpots, bucket_of, with_assignment, with_spot};
ghost use Rattle.dropin_merge.specs.unit_values.Service.{service_from, service_in};
ghost use Rattle.unit_grammar.specs.declared.unit.Assignment.{Assignment};

use crate::resolved::UnitFile;
use crate::unit_values::is_of_service;
use std::alloc::{AllocError, Global};
use unit_grammar::{Assignment, ItemList};

/// The number of buckets.
const BUCKETS: usize = 64;

/// The place of a byte by which keys of one length differ most often: it follows `Private` and `Protect`.
const MARK: usize = 7;

/// The place of an assignment among the files.
#[derive(Clone, Copy)]
pub struct Spot {
    /// The number of the file among those in force, from 0.
    pub file: usize,
    /// The number of the assignment in that file, from 0.
    pub at: usize,
}

/// Spots, which contracts see as a list.
pub type Spots = ItemList<Spot>;

// Returns the byte at that place, or 0 in a shorter key.
fn mark_of(key: &[u8]) -> u8
    ensures { result ≡ get_or key.now 7 0 }
{
    if key.len() > MARK { key[MARK] } else { 0 }
}

/// Returns the bucket of a key.
#[tactic(auto, unfolding(crate::specs::Spots::bucket_of))]
pub fn bucket_of(key: &str) -> usize
    ensures one_for_each_key { result ≡ bucket_of key.now }
{
    let mark = usize::from(mark_of(key.as_bytes()));
    (2 * (key.len() % BUCKETS) + mark) % BUCKETS
}

// Adds a spot to a bucket, if there is this bucket.
fn add_spot(buckets: &mut Vec<Spots>, bucket: usize, spot: Spot) -> Result<(), AllocError>
    ensures { OnOk result (buckets.new.items ≡ with_spot buckets.old.items bucket spot) }
{
    if bucket < buckets.len() {
        buckets[bucket].push(spot)?;
    }
    Ok(())
}

// Adds the spot of an assignment to the bucket of its key, if it is one of the service.
fn add_assignment(
    buckets: &mut Vec<Spots>,
    spot: Spot,
    assignment: &Assignment,
) -> Result<(), AllocError>
    ensures { OnOk result (buckets.new.items ≡ with_assignment buckets.old.items spot assignment.now) }
{
    if is_of_service(assignment) {
        add_spot(buckets, bucket_of(assignment.key.as_str()), spot)?;
    }
    Ok(())
}

// Adds the spots of the file of this number.
fn add_file(buckets: &mut Vec<Spots>, number: usize, file: &UnitFile) -> Result<(), AllocError>
    ensures { (files : List UnitFile) (ones : List (Place × Assignment)) → slice_get files number ≡ Some file.now → HoldSpots files ones buckets.old.items
        → OnOk result (HoldSpots files (ones ++ service_in number file.now.text.assignments) buckets.new.items) }
{
    let assignments = file.text.assignments.list();
    for at in 0..assignments.len() {
        let spot = Spot { file: number, at };
        add_assignment(buckets, spot, &assignments[at])?;
    }
    Ok(())
}

// Returns the buckets without spots.
fn empty_buckets(alloc: Global) -> Result<Vec<Spots>, AllocError>
    ensures { IfOk result (λ buckets. buckets.items ≡ replicate (length buckets.items) []) }
{
    let mut buckets = Vec::new(alloc);
    while buckets.len() < BUCKETS {
        buckets.push(Spots::empty(alloc))?;
    }
    Ok(buckets)
}

/// Returns the spots of the assignments in the section `[Service]` of these files, by buckets.
pub fn find_spots(alloc: Global, files: &[UnitFile]) -> Result<Vec<Spots>, AllocError>
    ensures each_in_its_bucket { IfOk result (λ buckets. HoldSpots files.now (service_from 0 files.now) buckets.items) }
{
    let mut buckets = empty_buckets(alloc)?;
    for number in 0..files.len() {
        add_file(&mut buckets, number, &files[number])?;
    }
    Ok(buckets)
}
