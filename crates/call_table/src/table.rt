// Defines the table of system calls for contracts and callers.
ghost use Rattle.std.specs.Prelude.{◌≡◌, ◌<◌, ◌≤◌, ◌^◌, None, map, find, length, option_and_then, slice_get};
ghost use Rattle.std.specs.Option.{option_map, option_copied};
ghost use Rattle.call_table.specs.Lookups.{named, numbered, place_named, group_named};
ghost use Rattle.call_table.specs.declared.call_names.kernel.Kernel.TheVariants.{Base};
ghost use Rattle.call_table.specs.ByNumber.{AscendsByNumber};
ghost use Rattle.call_table.specs.Facts.{AreLines, AreOf, AreGroups, IsTable, IsWhole};
ghost use Rattle.call_table.specs.Faults.{most_calls, most_families, most_groups};
ghost use Rattle.call_table.specs.Progress.{IsUnlessMemory};
ghost use Rattle.call_table.specs.Reading.{launch_calls, lacks, missing_call, unless_missing};
ghost use Rattle.call_table.specs.Kernels.{AreBy, known_by};
ghost use Rattle.call_table.specs.Views.{made, lines_seen};
ghost use Rattle.call_table.specs.Table.{every_call, abis, abi_at, arch_of, calls_in};

use crate::by_number::{Numbered, by_number};
use crate::call_names::Kernel;
use crate::causes::CallsError;
use crate::listed::{CallLine, CallLines, GroupLine};
use crate::lists::{Lists, second_calls};
use crate::lookups::{lines_of, named, numbered, place_among};
use crate::names::Name;
use std::alloc::Global;
use std::marker::Model;

/// The system calls of one ABI or two, groups of them, and families of sockets.
///
/// Contracts see a table as the name and the architecture of the native ABI, the lists of its calls, its families and
/// its groups, and a second ABI if there is one.
#[derive(Drop)]
pub struct CallTable {
    lists: Lists,
    by_number: Vec<Numbered>,
    second_by_number: Vec<Numbered>,
}

impl Model for CallTable {
    ghost use Rattle.call_table.specs.Table.{Table};
    ghost use Rattle.call_table.specs.Facts.{IsKept};
    ghost use Rattle.call_table.specs.Views.{made};

    ghost Value = { Table };

    ghost view = { λ table. made table.lists };

    ghost invariant = { λ table. IsKept (made table.lists) table.by_number.items table.second_by_number.items };
}

// Returns the calls that every launch makes.
fn launch_calls() -> &'static [&'static str]
    ensures { map (λ name. name.now) result.now ≡ launch_calls }
{
    &[
        "capset",
        "execve",
        "prctl",
        "seccomp",
        "setgroups",
        "setresgid",
        "setresuid",
        "unshare",
    ]
}

// Returns the first of these names that no call has.
fn first_missing(calls: &CallLines, names: &[&'static str]) -> Option<&'static str>
    ensures { option_map (λ name. name.now) result ≡ find (lacks calls.now) (map (λ name. name.now) names.now) }
{
    for name in names {
        if !calls.has(*name) {
            return Some(*name);
        }
    }
    None
}

// Returns the first call of every launch that is not among these calls.
#[tactic(auto, unfolding(crate::specs::Reading::missing_call))]
fn missing_call(calls: &CallLines) -> Option<&'static str>
    ensures { option_map (λ name. name.now) result ≡ missing_call calls.now }
{
    first_missing(calls, launch_calls())
}

impl CallTable {
    // Makes the table of these lists, if they have the calls of every launch.
    pub(crate) fn of(alloc: Global, lists: Lists) -> Result<CallTable, CallsError>
        requires sound { IsTable (made lists) }
        requires by_kernel { AreBy Base (every_call (made lists)) }
        ensures { IsUnlessMemory result (unless_missing (missing_call lists.calls) (made lists)) }
    {
        if let Some(name) = missing_call(&lists.calls) {
            return Err(CallsError::NoCall(Name::new(alloc, name)?));
        }
        let by_number_order = by_number(alloc, lists.calls.lines())?;
        let second_by_number = by_number(alloc, lines_of(second_calls(&lists.second)))?;
        Ok(CallTable {
            lists,
            by_number: by_number_order,
            second_by_number,
        })
    }

    /// Lets this kernel read the names of all calls. The base kernel reads the names of a table that was just read.
    pub fn known_by(&mut self, kernel: Kernel)
        ensures reads_each_call { self.new ≡ known_by kernel self.old }
    {
        self.lists.known_by(kernel);
    }

    /// Returns the architecture, as AUDIT_ARCH of linux/audit.h: `0xc000003e` for x86-64.
    pub fn arch(&self) -> u32
        ensures as_stated { result ≡ self.now.arch }
    {
        self.lists.arch
    }

    /// Returns the number of the call of this name.
    pub fn number(&self, name: &str) -> Option<u32>
        ensures by_name { result ≡ option_map (λ call. call.number) (named name.now self.now.calls) }
    {
        Some(self.lists.calls.get(name)?.number)
    }

    /// Returns the position of the first call of this name among all calls, from 0. The calls of the native ABI come first.
    pub fn position(&self, name: &str) -> Option<usize>
        ensures by_name { result ≡ place_named name.now (every_call self.now) }
    {
        place_among(&self.lists.calls, second_calls(&self.lists.second), name)
    }

    /// Returns the number of ABIs: 1 or 2.
    pub fn abis(&self) -> u8
        ensures counts { result ≡ length (abis self.now) }
        ensures whole { IsWhole self.now }
    {
        match &self.lists.second {
            Some(_) => 2,
            None => 1,
        }
    }

    /// Returns the name of the ABI at this position, from 0.
    pub fn abi_name(&self, abi: u8) -> Option<&str>
        ensures by_position { option_map (λ name. name.now) result ≡ option_map (λ abi. abi.name) (abi_at self.now abi) }
    {
        match abi {
            0 => Some(self.lists.name.as_str()),
            1 => match &self.lists.second {
                Some(second) => Some(second.name.as_str()),
                None => None,
            },
            _ => None,
        }
    }

    /// Returns the architecture of the ABI at this position, from 0.
    pub fn arch_of(&self, abi: u8) -> u32
        requires { abi < length (abis self.now) }
        ensures by_position { result ≡ arch_of self.now abi }
    {
        match &self.lists.second {
            Some(second) if abi == 1 => second.arch,
            _ => self.lists.arch,
        }
    }

    // Returns the architecture of the second ABI, or 0 if there is only one ABI.
    fn second_arch(&self) -> u32
        ensures { result ≡ arch_of self.now 1 }
    {
        match &self.lists.second {
            Some(second) => second.arch,
            None => 0,
        }
    }

    /// States facts of every table: it is whole, and its architectures are words of 32 bits. The call does
    /// nothing.
    pub fn look_at(&self)
        ensures whole { IsWhole self.now }
        ensures native { self.now.arch < 2 ^ 32 }
        ensures second { arch_of self.now 1 < 2 ^ 32 }
    {
        let _abis = self.abis();
        let _native = self.arch();
        let _second = self.second_arch();
    }

    // Returns the calls of the ABI at this position, from 0, if there is such an ABI.
    fn lines_in(&self, abi: u8) -> Option<&CallLines>
        ensures lists { lines_seen result ≡ calls_in self.now abi }
        ensures names_and_numbers_once { AreLines most_calls (calls_in self.now abi) }
        ensures of_the_abi { AreOf abi (calls_in self.now abi) }
    {
        match abi {
            0 => Some(&self.lists.calls),
            1 => second_calls(&self.lists.second),
            _ => None,
        }
    }

    /// Returns the calls of the ABI at this position, from 0, in the order of the file, at most 512. A missing ABI has no calls.
    pub fn calls_in(&self, abi: u8) -> &[CallLine]
        ensures lists { result.now ≡ calls_in self.now abi }
        ensures names_and_numbers_once { AreLines most_calls (calls_in self.now abi) }
        ensures of_the_abi { AreOf abi (calls_in self.now abi) }
    {
        lines_of(self.lines_in(abi))
    }

    /// Returns the call at this position among all calls, from 0. The calls of the native ABI come first.
    #[tactic(auto, using(crate::proofs::AllCalls::front_call, crate::proofs::AllCalls::back_call))]
    pub fn call_at(&self, at: usize) -> Option<&CallLine>
        ensures by_position { option_copied result ≡ slice_get (every_call self.now) at }
    {
        let native = self.calls();
        if at < native.len() {
            native.get(at)
        } else {
            self.calls_in(1).get(at - native.len())
        }
    }

    /// Returns the numbers of the calls of an ABI with their positions in `calls_in`, ascending by number.
    pub fn by_number_in(&self, abi: u8) -> &[Numbered]
        ensures ascends { AscendsByNumber (calls_in self.now abi) result.now }
    {
        match abi {
            0 => &self.by_number,
            1 => &self.second_by_number,
            _ => &[],
        }
    }

    /// Returns the number that the ABI at this position gives the call of this name.
    pub fn number_in(&self, abi: u8, name: &str) -> Option<u32>
        ensures by_name { result ≡ option_map (λ call. call.number) (named name.now (calls_in self.now abi)) }
    {
        Some(self.call_named(abi, name)?.number)
    }

    /// Returns the call of this name of the ABI at this position.
    pub fn call_named(&self, abi: u8, name: &str) -> Option<&CallLine>
        ensures by_name { option_copied result ≡ named name.now (calls_in self.now abi) }
    {
        named(self.lines_in(abi), name)
    }

    /// Returns the call to which the ABI at this position gives this number.
    pub fn call_numbered(&self, abi: u8, number: u32) -> Option<&CallLine>
        ensures by_number { option_copied result ≡ numbered number (calls_in self.now abi) }
    {
        numbered(self.calls_in(abi), number)
    }

    /// Returns the name of the call to which the ABI at this position gives this number.
    pub fn name_in(&self, abi: u8, number: u32) -> Option<&str>
        ensures by_number { option_map (λ name. name.now) result ≡ option_map (λ call. call.name) (numbered number (calls_in self.now abi)) }
    {
        Some(numbered(self.calls_in(abi), number)?.name.as_str())
    }

    /// Returns the capability of the call to which the ABI at this position gives this number, if the call has one.
    pub fn cap_in(&self, abi: u8, number: u32) -> Option<u8>
        ensures by_number { result ≡ option_and_then (λ call. call.cap) (numbered number (calls_in self.now abi)) }
    {
        numbered(self.calls_in(abi), number)?.cap
    }

    /// Returns the name of the call of this number.
    pub fn name(&self, number: u32) -> Option<&str>
        ensures by_number { option_map (λ name. name.now) result ≡ option_map (λ call. call.name) (numbered number self.now.calls) }
    {
        Some(numbered(self.lists.calls.lines(), number)?.name.as_str())
    }

    /// Returns the capability of the call of this number, if the table has the call and the call has one.
    pub fn cap(&self, number: u32) -> Option<u8>
        ensures by_number { result ≡ option_and_then (λ call. call.cap) (numbered number self.now.calls) }
    {
        numbered(self.lists.calls.lines(), number)?.cap
    }

    /// Returns the members of the group of this name, without its `@`.
    ///
    /// Members are positions in all calls, from 0. They ascend, and no position occurs twice. A member whose name both ABIs have is
    /// the position of the first of its two calls.
    pub fn members(&self, group: &str) -> Option<&[usize]>
        ensures by_name { option_copied result ≡ option_map (λ group. group.members) (group_named group.now self.now.groups) }
    {
        Some(self.lists.groups.get(group)?.members.list())
    }

    /// Returns the number of the family of this name (socket(2)).
    pub fn family(&self, name: &str) -> Option<u32>
        ensures by_name { result ≡ option_map (λ family. family.number) (named name.now self.now.families) }
    {
        Some(self.lists.families.get(name)?.number)
    }

    /// Returns the calls in the order of the file, at most 512.
    pub fn calls(&self) -> &[CallLine]
        ensures lists { result.now ≡ self.now.calls }
        ensures names_and_numbers_once { AreLines most_calls self.now.calls }
        ensures launch_calls_are_there { missing_call self.now.calls ≡ None }
    {
        self.lists.calls.lines()
    }

    /// Returns the numbers of the calls with their positions in `calls`, ascending by number.
    pub fn by_number(&self) -> &[Numbered]
        ensures ascends { AscendsByNumber self.now.calls result.now }
    {
        &self.by_number
    }

    /// Returns the families in the order of the file, at most 128.
    pub fn families(&self) -> &[CallLine]
        ensures lists { result.now ≡ self.now.families }
        ensures names_and_numbers_once { AreLines most_families self.now.families }
    {
        self.lists.families.lines()
    }

    /// Returns the groups in the order of the file, at most 128.
    pub fn groups(&self) -> &[GroupLine]
        ensures lists { result.now ≡ self.now.groups }
        ensures names_once_and_members_ascend { AreGroups (length (every_call self.now)) self.now.groups }
        ensures few { length self.now.groups ≤ most_groups }
    {
        self.lists.groups.lines()
    }
}
