//! Resolves a unit over a shelf that lists a file that it then lacks.
ghost use Rattle.std.specs.Prelude.{◌≡◌};

use dropin_merge::{Resolved, resolve};
use host_io::{Shelf, ShelfError};
use std::alloc::{AllocError, Global};

// A shelf with one fragment. Each of its folders lists a drop-in, which it then lacks, so no files agree with it.
#[derive(Drop)]
struct Fickle;

impl Shelf for Fickle {
    ghost agrees = { λ _ _. ⊥ };

    ghost faults = { λ _. 0 };

    // no call changes it
    ghost asks = { λ before _ now. now ≡ before };

    ghost agrees_with_maps = { λ _ _ agree. absurd agree };

    fn read(&mut self, alloc: Global, path: &str, limit: u64) -> Result<Vec<u8>, ShelfError> {
        if path == "etc/systemd/system/web.service" && limit >= 14 {
            b"[Service]\nA=1\n"
                .to_vec(alloc)
                .or(Err(ShelfError::Memory))
        } else {
            Err(ShelfError::Missing)
        }
    }

    fn list(&mut self, alloc: Global, _: &str) -> Result<Vec<String>, ShelfError> {
        let mut names = Vec::new(alloc);
        let gone = String::from_str(alloc, "gone.conf").or(Err(ShelfError::Memory))?;
        names.push(gone).or(Err(ShelfError::Memory))?;
        Ok(names)
    }
}

/// Returns the files in force of the unit of a name, over such a shelf.
pub fn resolved(alloc: Global, name: &str) -> Result<String, AllocError> {
    match &resolve(alloc, &mut Fickle, name) {
        Ok(unit) => shown(alloc, unit),
        Err(error) => error.to_string(alloc),
    }
}

// Its file with the number of assignments, or the number of its files if there are others.
fn shown(alloc: Global, unit: &Resolved) -> Result<String, AllocError> {
    match unit.files.list() {
        [file] => format!(in alloc;
            "{}:{}",
            file.path.as_str(),
            file.text.assignments.list().len()
        ),
        files => format!(in alloc; "{} files", files.len()),
    }
}
