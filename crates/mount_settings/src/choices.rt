//! Reads values that are a boolean or a word of a short list, such as the values of ProtectSystem= and ProtectHome=
//! (systemd.exec(5)).
ghost use Rattle.std.specs.Prelude.{◌≡◌, map};
ghost use Rattle.mount_settings.specs.Choices.{beside, choice};
ghost use Rattle.mount_settings.specs.Home.{home_value};
ghost use Rattle.mount_settings.specs.System.{system_value};

use crate::protections::{HomeProtection, SystemProtection};
use dropin_merge::unit_values::KeyValue;
use path_settings::read_bool;

/// Returns the value of the first row with this word.
pub(crate) fn beside<T: Copy>(rows: &[(&str, T)], text: &str) -> Option<T>
    ensures { result ≡ beside (map (λ row. (row.0.now, row.1)) rows.now) text.now }
{
    for row in rows {
        if row.0 == text {
            return Some(row.1);
        }
    }
    None
}

/// Reads a value: a boolean, or a word of these rows. An empty text means `off`.
pub(crate) fn read_choice<T: Copy>(text: &str, off: T, on: T, rows: &[(&str, T)]) -> Option<T>
    ensures { result ≡ choice off on (map (λ row. (row.0.now, row.1)) rows.now) text.now }
{
    if text.is_empty() {
        return Some(off);
    }
    match read_bool(text) {
        Some(true) => Some(on),
        Some(false) => Some(off),
        None => beside(rows, text),
    }
}

/// Reads a boolean, `full` or `strict`. An empty text means `no`.
impl KeyValue for SystemProtection {
    ghost reads = { system_value };

    fn read(text: &str) -> Option<SystemProtection> {
        let words = [
            ("full", SystemProtection::Full),
            ("strict", SystemProtection::Strict),
        ];
        read_choice(text, SystemProtection::No, SystemProtection::Yes, &words)
    }
}

/// Reads a boolean, `read-only` or `tmpfs`. An empty text means `no`.
impl KeyValue for HomeProtection {
    ghost reads = { home_value };

    fn read(text: &str) -> Option<HomeProtection> {
        let words = [
            ("read-only", HomeProtection::ReadOnly),
            ("tmpfs", HomeProtection::Tmpfs),
        ];
        read_choice(text, HomeProtection::No, HomeProtection::Yes, &words)
    }
}
