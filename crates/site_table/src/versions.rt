//! Reads the version of systemd of a site.

ghost use Rattle.std.specs.Prelude.{◌≡◌};
ghost use Rattle.toml.specs.View.{view};
ghost use Rattle.site_table.specs.Versions.{version_of, systemd_at};

use toml::Value;
use toml_shapes::number_at;
use unit_names::Version;

// Returns the version with this number, if its rules are known.
fn version_of(number: i64) -> Option<Version>
    ensures { result ≡ version_of number }
{
    match number {
        252 => Some(Version::V252),
        257 => Some(Version::V257),
        _ => None,
    }
}

/// Returns the known version of systemd, `Some(None)` if the key is missing, and None for any other number.
pub fn systemd_at(site: &Value) -> Option<Option<Version>>
    ensures known_or_missing { result ≡ systemd_at (view site.now) }
{
    match number_at(site, "systemd") {
        None => Some(None),
        Some(number) => Some(Some(version_of(number)?)),
    }
}
