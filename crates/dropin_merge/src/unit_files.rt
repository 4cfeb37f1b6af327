// Defines the files of a unit, with the places of the assignments to each key.
//
// Contracts see the files as a list.
ghost use Rattle.std.specs.Prelude.{◌≡◌, filter, IfSome};
ghost use Rattle.std.specs.List.{filter_map};
ghost use Rattle.dropin_merge.specs.Spots.{assignment_at, bucket_of, in_bucket};
ghost use Rattle.dropin_merge.specs.unit_values.Service.{service_from};

use crate::resolved::UnitFile;
use crate::spots::{Spot, Spots, bucket_of, find_spots};
use std::marker::Model;

/// Files in force, which contracts see as a list. The reader of a key finds its assignments without a walk over all files.
#[derive(Drop)]
pub struct UnitFiles {
    files: Vec<UnitFile>,
    // The spots of the assignments of the service. There are no buckets if memory ran out for them.
    buckets: Vec<Spots>,
}

impl Model for UnitFiles {
    ghost use Rattle.std.specs.Prelude.{List};
    ghost use Rattle.dropin_merge.specs.declared.resolved.UnitFile.{UnitFile};
    ghost use Rattle.dropin_merge.specs.Spots.{HoldSpots};
    ghost use Rattle.dropin_merge.specs.unit_values.Service.{service_from};

    ghost Value = { List UnitFile };

    ghost view = { λ held. held.files.items };

    ghost invariant = { λ held. HoldSpots held.files.items (service_from 0 held.files.items) held.buckets.items };
}

impl UnitFiles {
    /// Makes a list of these files.
    pub fn new(files: Vec<UnitFile>) -> Self
        ensures holds_them { result ≡ files.items }
    {
        let alloc = *files.allocator();
        let buckets = match find_spots(alloc, files.as_slice()) {
            Ok(buckets) => buckets,
            Err(_) => Vec::new(alloc),
        };
        UnitFiles { files, buckets }
    }

    /// Returns the files in their order.
    pub fn list(&self) -> &[UnitFile]
        ensures all_in_order { result.now ≡ self.now }
    {
        &self.files
    }

    // Returns the spots of the assignments of the service in the bucket of a key, if the spots are known.
    pub(crate) fn spots(&self, key: &str) -> Option<&[Spot]>
        ensures { IfSome result (λ spots. filter_map (assignment_at self.now) spots.now ≡ filter (in_bucket (bucket_of key.now)) (service_from 0 self.now)) }
    {
        let spots = self.buckets.get(bucket_of(key))?;
        Some(spots.list())
    }
}
