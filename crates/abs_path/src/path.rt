//! Defines a normal absolute path, its text and copies of it.
//!
//! A contract sees a path as the list of its parts; the text is a function of them.

mod prefix;
mod read;

ghost use Rattle.std.specs.Prelude.{◌≡◌, ◌≤◌, IsTrue, IfOk, length, []};
ghost use Rattle.abs_path.specs.Paths.{text_of, tail_of, is_root, is_normal, proc};
ghost use Rattle.std.specs.Ordering.{nat_cmp};
ghost use Rattle.std.specs.Cmp.Lexicographic.{slice_cmp};

use crate::text::Text;
use std::alloc::{AllocError, Global};
use std::cmp::Ordering;
use std::marker::Model;

/// The most bytes of the text of a path.
const LONGEST: usize = 512;

/// A normal absolute path of at most 512 bytes: no part is empty, `.` or `..`, and no byte is NUL.
#[derive(Drop)]
pub struct AbsPath {
    // the text, which is empty for the root
    tail: Text,
}

impl Model for AbsPath {
    ghost use Rattle.abs_path.specs.Paths.{Path, IsTail, parts_of};

    ghost Value = { Path };

    ghost view = { λ path. parts_of path.tail };

    ghost invariant = { λ path. IsTail path.tail };
}

impl AbsPath {
    /// Returns the root, `/`.
    pub fn root(alloc: Global) -> AbsPath
        ensures has_no_parts { result ≡ [] }
    {
        AbsPath {
            tail: Text::empty(),
        }
    }

    /// Returns the folder of the processes, `/proc` of proc(5).
    pub fn proc(alloc: Global) -> Result<AbsPath, AllocError>
        ensures of_the_processes { IfOk result (λ path. path ≡ proc) }
    {
        let tail = Text::read(alloc, "/proc")?;
        Ok(AbsPath { tail })
    }

    /// Returns the text: a lone slash for the root, and otherwise the parts, each after a slash.
    pub fn text(&self) -> &str
        ensures whole { result.now ≡ text_of self.now }
        ensures normal { IsTrue (is_normal self.now) }
        ensures short { length result.now ≤ 512 }
    {
        let tail = self.tail.as_str();
        if tail.is_empty() { "/" } else { tail }
    }

    /// Returns whether the path is the root.
    pub fn is_root(&self) -> bool
        ensures without_parts { result ≡ is_root self.now }
    {
        self.tail.as_str().is_empty()
    }

    /// Returns how many bytes the parts have, each with the slash before it. The root has 0.
    #[inline(always)]
    pub fn tail_len(&self) -> usize
        ensures length { result ≡ length (tail_of self.now) }
        ensures short { result ≤ 512 }
    {
        self.tail.len()
    }

    /// Compares two paths in the byte order of their texts.
    pub fn order(&self, other: &AbsPath) -> Ordering
        ensures by_bytes { result ≡ slice_cmp nat_cmp (tail_of self.now) (tail_of other.now) }
    {
        self.tail.as_str().cmp(other.tail.as_str())
    }

    /// Returns a copy of the path.
    #[inline]
    pub fn copy(&self, alloc: Global) -> Result<AbsPath, AllocError>
        ensures same { IfOk result (λ path. path ≡ self.now) }
    {
        Ok(AbsPath {
            tail: self.tail.copy()?,
        })
    }
}

impl PartialEq for AbsPath {
    ghost use Rattle.abs_path.specs.Prefix.{is_same};
    ghost use Rattle.std.specs.Cmp.{partial_equiv_from_equiv};
    ghost use Rattle.std.specs.Cmp.Lexicographic.{lists_equiv, nat_list_eq_equiv};

    ghost eq = { is_same };

    ghost laws = { partial_equiv_from_equiv (lists_equiv nat_list_eq_equiv) };

    fn eq(&self, other: &AbsPath) -> bool {
        self.tail.as_str() == other.tail.as_str()
    }
}

impl Eq for AbsPath {
    ghost use Rattle.std.specs.Cmp.Lexicographic.{lists_equiv, nat_list_eq_equiv};

    ghost laws = { lists_equiv nat_list_eq_equiv };
}
