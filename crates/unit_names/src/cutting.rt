// Cuts a name's text into its prefix and its instance.
//
// The parts borrow from the text; `name` keeps copies.
ghost use Rattle.std.specs.Prelude.{◌≡◌, codes};
ghost use Rattle.std.specs.List.{list_all};
ghost use Rattle.std.specs.Option.{option_map, option_copied};
ghost use Rattle.unit_names.specs.Names.{is_prefix_byte, is_instance_byte, is_filled_by, is_instance};
ghost use Rattle.unit_names.specs.Cutting.{before_end, cut_at, of_stem, name_of, borrowed_name};

/// The end of every name, after its prefix and its instance.
pub const SUFFIX: &str = ".service";

/// The most bytes that a name has.
const LONGEST_NAME: usize = 255;

/// The parts of a name, borrowed from its text.
#[derive(Clone, Copy)]
pub struct Parts<'a> {
    pub prefix: &'a str,
    pub instance: Option<&'a str>,
}

/// Returns the text before `.service`, if the text ends with it.
pub fn stem_of(text: &str) -> Option<&str>
    ensures before_the_ending { option_map (λ stem. stem.now) result ≡ before_end (codes ".service") text.now }
{
    text.strip_suffix(SUFFIX)
}

fn sides_of_at(stem: &str) -> Option<(&str, &str)>
    ensures { option_map (λ sides. (sides.0.now, sides.1.now)) result ≡ cut_at 64 stem.now }
{
    stem.split_once('@')
}

/// Cuts the text before `.service` at its first `@`, and returns the parts.
pub fn parts_of(stem: &str) -> Parts<'_>
    ensures of_the_stem { borrowed_name result ≡ of_stem stem.now }
{
    let (prefix, instance) = match sides_of_at(stem) {
        Some((prefix, instance)) => (prefix, Some(instance)),
        None => (stem, None),
    };
    Parts { prefix, instance }
}

fn is_prefix_byte(byte: u8) -> bool
    ensures { result ≡ is_prefix_byte byte }
{
    byte.is_ascii_alphanumeric() || matches!(byte, b':' | b'-' | b'_' | b'.' | b'\\')
}

fn is_instance_byte(byte: u8) -> bool
    ensures { result ≡ is_instance_byte byte }
{
    is_prefix_byte(byte) || byte == b'@'
}

fn are_prefix_bytes(text: &[u8]) -> bool
    ensures { result ≡ list_all is_prefix_byte text.now }
{
    text.iter().all(|byte| is_prefix_byte(*byte))
}

fn are_instance_bytes(text: &[u8]) -> bool
    ensures { result ≡ list_all is_instance_byte text.now }
{
    text.iter().all(|byte| is_instance_byte(*byte))
}

fn is_prefix(text: &str) -> bool
    ensures { result ≡ is_filled_by is_prefix_byte text.now }
{
    !text.is_empty() && are_prefix_bytes(text.as_bytes())
}

fn is_instance_text(text: &str) -> bool
    ensures { result ≡ is_filled_by is_instance_byte text.now }
{
    !text.is_empty() && are_instance_bytes(text.as_bytes())
}

fn is_instance(instance: Option<&str>) -> bool
    ensures { result ≡ is_instance (option_copied instance.entry) }
{
    instance.is_none_or(|instance| is_instance_text(instance))
}

/// Returns the parts of a text, or nothing if the text is no name of a service.
pub fn name_parts(text: &str) -> Option<Parts<'_>>
    ensures of_a_name { option_map (λ parts. borrowed_name parts) result ≡ name_of text.now }
{
    let parts = parts_of(stem_of(text)?);
    let allowed = is_prefix(parts.prefix) && is_instance(parts.instance);
    (allowed && text.len() <= LONGEST_NAME).then_some(parts)
}
