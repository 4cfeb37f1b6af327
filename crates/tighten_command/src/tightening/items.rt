//! The items of hardening, and a unit with some of them.

ghost use Rattle.std.specs.Prelude.{◌≡◌, ◌<◌, ◌≤◌, ◌∷◌, ◌++◌, [], IfOk, OnOk, cond, length, map};
ghost use Rattle.std.specs.List.{All};
ghost use Rattle.tighten_command.specs.tightening.Items.{drop_in_text, has, in_order, line_of, lines, tightened};

use asked_service::Resolved;
use asked_service::launching::with_file;
use std::alloc::{AllocError, Global};

// The lines of all items, in the order of their numbers, from 1.
fn lines() -> &'static [&'static str]
    ensures { map (λ line. line.now) result.now ≡ lines }
{
    &[
        "NoNewPrivileges=yes",
        "PrivateTmp=yes",
        "PrivateDevices=yes",
        "ProtectSystem=strict",
        "ProtectHome=yes",
        "ProtectKernelTunables=yes",
        "ProtectKernelModules=yes",
        "ProtectKernelLogs=yes",
        "ProtectClock=yes",
        "ProtectControlGroups=yes",
        "ProtectHostname=yes",
        "RestrictNamespaces=yes",
        "LockPersonality=yes",
        "MemoryDenyWriteExecute=yes",
        "RestrictRealtime=yes",
        "RestrictSUIDSGID=yes",
        "CapabilityBoundingSet=",
    ]
}

/// The line that the item of this number adds to a unit, from 1 to 17.
pub fn line(item: u8) -> &'static str
    requires from_1 { 1 ≤ item }
    requires to_17 { item ≤ 17 }
    ensures by_its_number { result.now ≡ line_of item }
{
    lines()[item as usize - 1]
}

// Whether the item is in the set.
pub(crate) fn has(set: &[u8], item: u8) -> bool
    ensures { result ≡ has set.now item }
{
    set.contains(&item)
}

// Appends an item if it is in the set.
fn push_if(items: &mut Vec<u8>, set: &[u8], item: u8) -> Result<(), AllocError>
    ensures { OnOk result (items.new.items ≡ items.old.items ++ cond (has set.now item) (item ∷ []) []) }
{
    if has(set, item) {
        items.push(item)?;
    }
    Ok(())
}

/// The items of a set, in the order of the lines.
pub(crate) fn in_order(alloc: Global, set: &[u8]) -> Result<Vec<u8>, AllocError>
    ensures in_order { IfOk result (λ items. items.items ≡ in_order set.now) }
    ensures are_items { IfOk result (λ items. All (λ item. (1 ≤ item) × (item ≤ 17)) items.items) }
{
    let mut items = Vec::new(alloc);
    for place in 0..17u8 {
        push_if(&mut items, set, place + 1)?;
    }
    Ok(items)
}

/// The lines of these items as a drop-in, systemd.unit(5).
pub fn drop_in(alloc: Global, items: &[u8]) -> Result<Vec<u8>, AllocError>
    requires are_items { All (λ item. (1 ≤ item) × (item ≤ 17)) items.now }
    ensures adds_exactly_these { IfOk result (λ text. text.items ≡ drop_in_text items.now) }
{
    let mut text = b"[Service]\n".to_vec(alloc)?;
    for item in items {
        text.extend_from_slice(line(*item).as_bytes())?;
        text.push(b'\n')?;
    }
    Ok(text)
}

/// The unit with the lines of a set added last, in their order, where there are some.
pub(crate) fn tightened(alloc: Global, unit: &Resolved, set: &[u8]) -> Result<Resolved, AllocError>
    requires some { 0 < length (in_order set.now) }
    ensures { IfOk result (λ tight. tight ≡ tightened unit.now set.now) }
{
    let items = in_order(alloc, set)?;
    let text = drop_in(alloc, &items)?;
    with_file(alloc, unit, &text)
}
