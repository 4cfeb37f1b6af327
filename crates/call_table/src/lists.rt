// Builds the lists of a table line by line, and judges a line by the lists of the lines before it.
ghost use Rattle.std.specs.Prelude.{◌≡◌, ◌≤◌, ◌++◌, ◌∷◌, [], None, true, false, OnOk, map, length};
ghost use Rattle.std.specs.List.{cons_option, All};
ghost use Rattle.std.specs.Option.{option_map};
ghost use Rattle.text_forms.specs.line_text.Views.{line_view};
ghost use Rattle.call_table.specs.Views.{made, made_second, lines_seen};
ghost use Rattle.call_table.specs.Kernels.{known_by};
ghost use Rattle.call_table.specs.Table.{second_calls};
ghost use Rattle.call_table.specs.Kinds.{abi, call, seen, seen_entry};
ghost use Rattle.call_table.specs.Facts.{AreLines, AreOf, AreGroups, IsTable, HasCapAmong};
ghost use Rattle.call_table.specs.Members.{members_of};
ghost use Rattle.call_table.specs.Faults.{is_same_cap, has_other_cap, entry_fault, group_fault, abi_fault, cause_of, most_calls, most_groups};
ghost use Rattle.call_table.specs.Reading.{listed_as, line_kind};
ghost use Rattle.call_table.specs.Progress.{Steps, ReadsCap, ChecksCap, ChecksEntry, with_kind};

use crate::call_names::{Kernel, is_known};
use crate::causes::{CallsCause, CallsError};
use crate::kinds::{Entry, Kind, kind_of_words};
use crate::listed::{CallLine, CallLines, GroupLine, GroupLines};
use crate::lookups::{has_number, named};
use crate::members::find_members;
use crate::names::Name;
use crate::numbers::{read_arch, read_cap, read_number};
use std::alloc::{AllocError, Global};
use text_forms::line_text::{Line, words};

/// The most calls of an ABI.
const MOST_CALLS: usize = 512;

/// The most families of a table.
const MOST_FAMILIES: usize = 128;

/// The most groups of a table.
const MOST_GROUPS: usize = 128;

/// The name, the architecture and the calls of a second ABI.
#[derive(Drop)]
pub struct SecondAbi {
    pub name: Name,
    pub arch: u32,
    pub calls: CallLines,
}

/// The name and the architecture of the native ABI, the lists of a table, and a second ABI.
#[derive(Drop)]
pub struct Lists {
    pub name: Name,
    pub arch: u32,
    pub calls: CallLines,
    pub families: CallLines,
    pub groups: GroupLines,
    pub second: Option<SecondAbi>,
}

/// Returns the calls of the second ABI, if there is one.
pub fn second_calls(second: &Option<SecondAbi>) -> Option<&CallLines>
    ensures calls_of_second { lines_seen result ≡ second_calls (option_map made_second second.now) }
{
    match second {
        Some(second) => Some(&second.calls),
        None => None,
    }
}

// Reads the capability that a line writes, if any.
fn read_written_cap(word: Option<&str>) -> Result<Option<u8>, CallsCause>
    ensures { ReadsCap (option_map (λ word. word.now) word.entry) result }
{
    match word {
        None => Ok(None),
        Some(word) => match read_cap(word) {
            Some(cap) => Ok(Some(cap)),
            None => Err(CallsCause::Cap),
        },
    }
}

fn is_same_cap(cap: Option<u8>, other: Option<u8>) -> bool
    ensures { result ≡ is_same_cap cap other }
{
    match (cap, other) {
        (None, None) => true,
        (Some(cap), Some(other)) => cap == other,
        _ => false,
    }
}

// Returns whether another ABI gives a call of this name another capability.
fn has_other_cap(others: Option<&CallLines>, name: &str, cap: Option<u8>) -> bool
    ensures { result ≡ has_other_cap (lines_seen others.entry) name.now cap }
{
    match named(others, name) {
        Some(line) => !is_same_cap(line.cap, cap),
        None => false,
    }
}

// Reads the capability that a line writes for a call of this name, if any, and refuses one that another ABI contradicts.
fn check_cap(
    others: Option<&CallLines>,
    name: &str,
    word: Option<&str>,
) -> Result<Option<u8>, CallsCause>
    ensures { ChecksCap (lines_seen others.entry) name.now (option_map (λ word. word.now) word.entry) result }
{
    let cap = read_written_cap(word)?;
    if has_other_cap(others, name, cap) {
        return Err(CallsCause::Cap);
    }
    Ok(cap)
}

// Returns the number and the capability of a call or a family, or its first fault after these lines.
#[tactic(auto, unfolding(crate::specs::Faults::entry_fault))]
fn check_entry(
    others: Option<&CallLines>,
    lines: &CallLines,
    most: usize,
    without_cap: bool,
    row: Entry,
) -> Result<(u32, Option<u8>), CallsCause>
    ensures { ChecksEntry (lines_seen others.entry) lines.now most without_cap (seen_entry row.entry) result }
{
    let number = read_number(row.digits).ok_or(CallsCause::Number)?;
    let cap = check_cap(others, row.name, row.cap_word)?;
    if without_cap && cap.is_some() {
        return Err(CallsCause::Modelled);
    }
    if lines.has(row.name) || has_number(lines.lines(), number) {
        return Err(CallsCause::Duplicate);
    }
    if lines.lines().len() >= most {
        return Err(CallsCause::TooMany);
    }
    Ok((number, cap))
}

// Adds a call of an ABI, or a family, to its list. `others` has the calls of the other ABI.
fn add_entry(
    alloc: Global,
    others: Option<&CallLines>,
    lines: &mut CallLines,
    most: usize,
    without_cap: bool,
    abi: u8,
    at: u64,
    row: Entry,
) -> Result<(), CallsError>
    requires lines { AreLines most lines.old }
    requires same_caps { All (HasCapAmong (lines_seen others)) lines.old }
    requires of_abi { AreOf abi lines.old }
    ensures steps { Steps (entry_fault (lines_seen others.entry) lines.old most without_cap (seen_entry row.entry)) at
        (lines.old ++ cons_option (listed_as abi (seen_entry row.entry)) []) lines.new result }
    ensures sound { OnOk result (AreLines most lines.new) }
    ensures same_caps { OnOk result (All (HasCapAmong (lines_seen others.entry)) lines.new) }
    ensures of_abi { OnOk result (AreOf abi lines.new) }
{
    match check_entry(others, lines, most, without_cap, row) {
        Ok((number, cap)) => {
            let name = Name::new(alloc, row.name)?;
            let line = CallLine {
                name,
                number,
                cap,
                abi,
                kernel: Kernel::Base,
            };
            lines.push(alloc, line)?;
            Ok(())
        }
        Err(cause) => Err(CallsError::Line(at, cause)),
    }
}

// Adds a group to the groups.
#[tactic(auto, unfolding(crate::specs::Faults::group_fault))]
fn add_group(
    alloc: Global,
    calls: &CallLines,
    more: Option<&CallLines>,
    groups: &mut GroupLines,
    at: u64,
    name: &str,
    words: &[&str],
) -> Result<(), CallsError>
    requires few_calls { length calls.now ≤ most_calls }
    requires few_more { length (lines_seen more) ≤ most_calls }
    requires groups { AreGroups (length (calls.now ++ lines_seen more)) groups.old }
    ensures steps { let names = map (λ word. word.now) words.now in let every = calls.now ++ lines_seen more.entry in
        Steps (group_fault every groups.old name.now names) at
        (groups.old ++ record { name = name.now; members = members_of every groups.old names } ∷ []) groups.new result }
    ensures sound { OnOk result (AreGroups (length (calls.now ++ lines_seen more.entry)) groups.new) }
    ensures few { OnOk result (length groups.new ≤ most_groups) }
{
    if groups.has(name) {
        return Err(CallsError::Line(at, CallsCause::Duplicate));
    }
    let Some(members) = find_members(alloc, calls, more, groups, words)? else {
        return Err(CallsError::Line(at, CallsCause::Member));
    };
    if groups.lines().len() >= MOST_GROUPS {
        return Err(CallsError::Line(at, CallsCause::TooMany));
    }
    let name = Name::new(alloc, name)?;
    let group = GroupLine { name, members };
    groups.push(alloc, group)?;
    Ok(())
}

impl Lists {
    /// Makes the lists that have no line after the first abi line.
    pub fn new(alloc: Global, name: Name, arch: u32) -> Lists
        ensures has_no_lines { made result ≡ record { name = name; arch = arch; calls = []; families = []; groups = []; second = None } }
    {
        Lists {
            name,
            arch,
            calls: CallLines::new(alloc),
            families: CallLines::new(alloc),
            groups: GroupLines::new(alloc),
            second: None,
        }
    }

    /// Lets this kernel read the names of all calls.
    pub fn known_by(&mut self, kernel: Kernel)
        ensures reads_each_call { made self.new ≡ known_by kernel (made self.old) }
    {
        self.calls.mark(kernel);
        if let Some(second) = &mut self.second {
            second.calls.mark(kernel);
        }
    }

    // Opens a second ABI.
    #[tactic(auto, unfolding(crate::specs::Faults::abi_fault))]
    fn add_abi(
        &mut self,
        alloc: Global,
        two: bool,
        at: u64,
        name: &str,
        digits: &str,
    ) -> Result<(), CallsError>
        requires { IsTable (made self.old) }
        ensures steps { Steps (abi_fault two (made self.old) name.now digits.now) at (with_kind (made self.old) (abi name.now digits.now)) (made self.new) result }
        ensures sound { OnOk result (IsTable (made self.new)) }
    {
        if !two || self.second.is_some() || name == "native" {
            return Err(CallsError::Line(at, CallsCause::Words));
        }
        let Some(arch) = read_arch(digits) else {
            return Err(CallsError::Line(at, CallsCause::Number));
        };
        if name == self.name.as_str() || arch == self.arch {
            return Err(CallsError::Line(at, CallsCause::Duplicate));
        }
        self.second = Some(SecondAbi {
            name: Name::new(alloc, name)?,
            arch,
            calls: CallLines::new(alloc),
        });
        Ok(())
    }

    // Adds a call to the last ABI.
    fn add_call(&mut self, alloc: Global, at: u64, row: Entry) -> Result<(), CallsError>
        requires { IsTable (made self.old) }
        ensures steps { Steps (cause_of true (made self.old) (call (seen_entry row.entry))) at (with_kind (made self.old) (call (seen_entry row.entry))) (made self.new) result }
        ensures sound { OnOk result (IsTable (made self.new)) }
    {
        let without_cap = is_known(Kernel::Base, row.name);
        match &mut self.second {
            None => add_entry(
                alloc,
                None,
                &mut self.calls,
                MOST_CALLS,
                without_cap,
                0,
                at,
                row,
            ),
            Some(second) => add_entry(
                alloc,
                Some(&self.calls),
                &mut second.calls,
                MOST_CALLS,
                without_cap,
                1,
                at,
                row,
            ),
        }
    }

    // Adds a line of this kind.
    fn add(&mut self, alloc: Global, two: bool, at: u64, kind: Kind) -> Result<(), CallsError>
        requires { IsTable (made self.old) }
        ensures steps { Steps (cause_of two (made self.old) (seen kind.entry)) at (with_kind (made self.old) (seen kind.entry)) (made self.new) result }
        ensures sound { OnOk result (IsTable (made self.new)) }
    {
        match kind {
            Kind::Abi(name, digits) => self.add_abi(alloc, two, at, name, digits),
            Kind::Call(row) => self.add_call(alloc, at, row),
            Kind::Family(row) => add_entry(
                alloc,
                None,
                &mut self.families,
                MOST_FAMILIES,
                false,
                0,
                at,
                row,
            ),
            Kind::Group(name, words) => add_group(
                alloc,
                &self.calls,
                second_calls(&self.second),
                &mut self.groups,
                at,
                name,
                words,
            ),
            Kind::Malformed => Err(CallsError::Line(at, CallsCause::Words)),
        }
    }

    /// Adds the next line. `two` says whether the file announces two ABIs.
    #[tactic(auto, unfolding(crate::specs::Reading::line_kind))]
    pub fn take(&mut self, alloc: Global, two: bool, line: &Line) -> Result<(), CallsError>
        requires { IsTable (made self.old) }
        ensures steps { Steps (cause_of two (made self.old) (line_kind (line_view line.now))) line.now.number (with_kind (made self.old) (line_kind (line_view line.now))) (made self.new) result }
        ensures sound { OnOk result (IsTable (made self.new)) }
    {
        let words = words(alloc, line.text)?;
        self.add(alloc, two, line.number, kind_of_words(words.as_slice()))
    }
}
