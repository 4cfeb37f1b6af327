//! A folder with a name that is no text. std makes no such name, so what the system lists is made up here.
use std::alloc::{AllocError, Allocator, Global};
use std::fs::{Metadata, OpenOptions};
use std::io;
use std::io::Read;
use std::rt::Files;

// What a folder lists, each name ended by a NUL.
const NAMES: &[u8] = b"web.service\0\xff.conf\0";

/// A folder whose names one read gives.
#[derive(Drop)]
pub struct Folder {
    is_read: bool,
}

impl Read for Folder {
    fn read(&mut self, buf: &mut [u8]) -> io::Result<usize> {
        if self.is_read {
            return Ok(0);
        }
        self.is_read = true;
        let mut names = NAMES;
        names.read(buf)
    }
}

/// The files of the system, but each folder lists a file, and then a name that is no text.
#[derive(Drop)]
pub struct OddNames<R> {
    rt: R,
}

impl<R: Clone + Drop> OddNames<R> {
    /// The files of this system, but for what its folders list.
    pub fn new(rt: &R) -> Result<Self, AllocError> {
        Ok(OddNames { rt: rt.clone()? })
    }
}

impl<R: Clone + Drop> Clone for OddNames<R> {
    fn clone(&self) -> Result<Self, AllocError> {
        OddNames::new(&self.rt)
    }
}

impl<R: AllocGlobal> Alloc for OddNames<R> {
    type A = Global;

    fn alloc(&self) -> Global {
        self.rt.alloc()
    }
}

impl<R: Files> Files for OddNames<R> {
    type File = R::File;

    type Dir = Folder;

    fn open_file(&self, how: &OpenOptions, path: &str) -> io::Result<R::File> {
        self.rt.open_file(how, path)
    }

    fn open_dir(&self, _: &str) -> io::Result<Folder> {
        Ok(Folder { is_read: false })
    }

    fn metadata(&self, path: &str) -> io::Result<Metadata> {
        self.rt.metadata(path)
    }

    fn symlink_metadata(&self, path: &str) -> io::Result<Metadata> {
        self.rt.symlink_metadata(path)
    }

    fn copy(&self, from: &str, to: &str) -> io::Result<u64> {
        self.rt.copy(from, to)
    }

    fn rename(&self, from: &str, to: &str) -> io::Result<()> {
        self.rt.rename(from, to)
    }

    fn remove_file(&self, path: &str) -> io::Result<()> {
        self.rt.remove_file(path)
    }

    fn create_dir(&self, path: &str) -> io::Result<()> {
        self.rt.create_dir(path)
    }

    fn remove_dir(&self, path: &str) -> io::Result<()> {
        self.rt.remove_dir(path)
    }

    fn remove_dir_all<B: Allocator>(&self, alloc: B, path: &str) -> io::Result<()> {
        self.rt.remove_dir_all(alloc, path)
    }
}
