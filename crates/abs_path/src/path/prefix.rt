//! Tests prefixes by whole parts, takes the rest of a path after a prefix, and joins the two again.

ghost use Rattle.std.specs.Prelude.{◌≡◌, ◌≤◌, ◌++◌, IfOk, IfSome, IsTrue, length, option_map, true};
ghost use Rattle.abs_path.specs.Paths.{is_normal, parts_of, tail_of};
ghost use Rattle.abs_path.specs.Prefix.{is_prefix, is_below, rest_of, rest_text, IsRest, Joins, is_behind, after, behind_text};

use super::{AbsPath, LONGEST};
use crate::error::JoinError;
use std::alloc::{AllocError, Global};

#[inline(always)]
fn is_behind(rest: &str) -> bool
    ensures { result ≡ is_behind rest.now }
{
    match rest.as_bytes().first() {
        None => true,
        Some(byte) => *byte == b'/',
    }
}

#[inline(always)]
fn after<'a>(front: &str, text: &'a str) -> Option<&'a str>
    ensures { option_map (λ rest. rest.now) result ≡ after front.now text.now }
{
    text.strip_prefix(front)
}

// returns the rest of the text after the front, if the text ends there or continues with a slash
#[inline(always)]
fn behind<'a>(front: &str, text: &'a str) -> Option<&'a str>
    ensures { option_map (λ rest. rest.now) result ≡ behind_text front.now text.now }
{
    let rest = after(front, text)?;
    if is_behind(rest) { Some(rest) } else { None }
}

impl AbsPath {
    /// Returns whether this path is the other or leads to it, by whole parts.
    #[inline(always)]
    pub fn is_prefix(&self, of: &AbsPath) -> bool
        ensures by_whole_parts { result ≡ is_prefix self.now of.now }
    {
        if self.tail_len() > of.tail_len() {
            return false;
        }
        self.rest(of).is_some()
    }

    /// Returns whether the other path leads to this one, and is not this one.
    #[inline(always)]
    pub fn is_below(&self, other: &AbsPath) -> bool
        ensures by_whole_parts { result ≡ is_below self.now other.now }
    {
        match other.rest(self) {
            Some(rest) => !rest.is_empty(),
            None => false,
        }
    }

    /// Returns the rest of the other path after this one: nothing, or further parts, each after a slash. None if this
    /// path does not lead to the other.
    #[inline(always)]
    pub fn rest<'a>(&self, of: &'a AbsPath) -> Option<&'a str>
        ensures behind { option_map (λ rest. rest.now) result ≡ rest_text self.now of.now }
        ensures further_parts { IfSome result (λ rest. parts_of rest.now ≡ rest_of self.now of.now) }
        ensures may_be_joined { IfSome result (λ rest. IsRest rest.now) }
        ensures normal { IsTrue (is_normal of.now) }
    {
        behind(self.tail.as_str(), of.tail.as_str())
    }

    /// Returns the path with a rest after it. `rest` returns such a rest: nothing, or normal parts, each after a
    /// slash.
    ///
    /// It returns TooLong if the two have more than 512 bytes together. It may return Memory for any rest.
    #[inline]
    pub fn join(&self, alloc: Global, rest: &str) -> Result<AbsPath, JoinError>
        requires { IsRest rest.now }
        ensures joins_or_too_long { Joins self.now rest.now result }
    {
        if self.tail.len() + rest.len() > LONGEST {
            return Err(JoinError::TooLong);
        }
        self.with_rest(alloc, rest).or(Err(JoinError::Memory))
    }

    // Returns the path with a rest after it. The two have at most 512 bytes together.
    #[inline]
    fn with_rest(&self, alloc: Global, rest: &str) -> Result<AbsPath, AllocError>
        requires is_rest { IsRest rest.now }
        requires short { length (tail_of (self.now ++ parts_of rest.now)) ≤ 512 }
        ensures { IfOk result (λ path. path ≡ self.now ++ parts_of rest.now) }
    {
        let tail = self.tail.with_rest(alloc, rest)?;
        Ok(AbsPath { tail })
    }

    /// Moves the path from a front that leads to it onto another path: the result is that path with the rest of this
    /// path after the front.
    pub fn moved(
        &self,
        alloc: Global,
        front: &AbsPath,
        onto: &AbsPath,
    ) -> Result<AbsPath, AllocError>
        requires leads { is_prefix front.now self.now ≡ true }
        requires short { length (tail_of (onto.now ++ rest_of front.now self.now)) ≤ 512 }
        ensures moved { IfOk result (λ path. path ≡ onto.now ++ rest_of front.now self.now) }
    {
        onto.with_rest(alloc, front.rest(self).unwrap())
    }
}
