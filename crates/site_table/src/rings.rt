//! Reads whether processes can set up rings on a site.

ghost use Rattle.std.specs.Prelude.{◌≡◌};
ghost use Rattle.toml.specs.View.{view};
ghost use Rattle.site_table.specs.Rings.{rings_at};

use toml::Value;
use toml_shapes::flag_at;

/// Returns whether processes can set up rings, io_uring(7). A missing key means that they can.
pub fn rings_at(site: &Value) -> bool
    ensures stated_or_missing { result ≡ rings_at (view site.now) }
{
    flag_at(site, "io_uring").unwrap_or(true)
}
