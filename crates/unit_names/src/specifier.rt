// Defines the specifiers, their letters and their texts.
//
// systemd.unit(5), Specifiers, has the table; `expand` puts the texts into a value.
ghost use Rattle.std.specs.Prelude.{◌≡◌};
ghost use Rattle.unit_names.specs.Specifiers.{specifier_at, specified_text, unescapes, is_path, instance_text, last_part, is_kept};

use crate::name::UnitName;
use crate::version::Version;

/// The letters of specifiers whose text the running machine, its system or the files of the unit give.
const HOST_LETTERS: &[u8] = b"aAbBcdDHlmMoqrRvwWyY";

/// A specifier: `%` and a letter. The system's manager, which runs as root, determines its text.
#[derive(Clone, Copy)]
pub enum Specifier {
    /// `%%`: one percent sign.
    Percent,
    /// `%n`: the whole name.
    WholeName,
    /// `%N`: the name without `.service`.
    Stem,
    /// `%p`: the prefix.
    Prefix,
    /// `%i`: the instance, or nothing.
    Instance,
    /// `%j`: the prefix after its last dash, or all of it.
    LastPart,
    /// `%P`: the prefix, unescaped.
    PrefixUnescaped,
    /// `%I`: the instance, unescaped.
    InstanceUnescaped,
    /// `%J`: the text of `%j`, unescaped.
    LastPartUnescaped,
    /// `%t`: `/run`.
    RuntimeFolder,
    /// `%S`: `/var/lib`.
    StateFolder,
    /// `%C`: `/var/cache`.
    CacheFolder,
    /// `%L`: `/var/log`.
    LogFolder,
    /// `%E`: `/etc`.
    ConfigFolder,
    /// `%T`: `/tmp`.
    TemporaryFolder,
    /// `%V`: `/var/tmp`.
    LastingTemporaryFolder,
    /// `%u`: the name of the user of the manager, `root`.
    UserName,
    /// `%U`: the number of that user, 0.
    UserNumber,
    /// `%h`: the home of that user, `/root`.
    HomeFolder,
    /// `%f`: the unescaped instance, or without an instance the unescaped prefix, with exactly one slash at its front.
    NamedPath,
    /// `%g`: the name of the group of the user of the manager, `root`.
    GroupName,
    /// `%G`: the number of that group, 0.
    GroupNumber,
    /// `%s`: the shell of that user, `/bin/sh`.
    Shell,
}

impl Specifier {
    /// Returns the specifier with this letter, if a unit of this systemd has one.
    pub fn with_letter(systemd: Option<Version>, letter: u8) -> Option<Specifier>
        ensures by_letter { result ≡ specifier_at systemd letter }
    {
        Some(match letter {
            b'%' => Specifier::Percent,
            b'n' => Specifier::WholeName,
            b'N' => Specifier::Stem,
            b'p' => Specifier::Prefix,
            b'i' => Specifier::Instance,
            b'j' => Specifier::LastPart,
            b'P' => Specifier::PrefixUnescaped,
            b'I' => Specifier::InstanceUnescaped,
            b'J' => Specifier::LastPartUnescaped,
            b't' => Specifier::RuntimeFolder,
            b'S' => Specifier::StateFolder,
            b'C' => Specifier::CacheFolder,
            b'L' => Specifier::LogFolder,
            b'E' => Specifier::ConfigFolder,
            b'T' => Specifier::TemporaryFolder,
            b'V' => Specifier::LastingTemporaryFolder,
            b'u' => Specifier::UserName,
            b'U' => Specifier::UserNumber,
            b'h' => Specifier::HomeFolder,
            b'f' if systemd.is_some() => Specifier::NamedPath,
            b'g' if systemd.is_some() => Specifier::GroupName,
            b'G' if systemd.is_some() => Specifier::GroupNumber,
            b's' if systemd.is_some() => Specifier::Shell,
            _ => return None,
        })
    }

    /// Returns whether `text` gives an escaped text, which the specifier unescapes.
    pub fn unescapes(self) -> bool
        ensures by_kind { result ≡ unescapes self }
    {
        matches!(
            self,
            Specifier::PrefixUnescaped | Specifier::InstanceUnescaped | Specifier::LastPartUnescaped
        )
    }

    /// Returns whether the specifier is a path.
    pub fn is_path(self) -> bool
        ensures by_kind { result ≡ is_path self }
    {
        matches!(self, Specifier::NamedPath)
    }

    /// Returns the text of the specifier before unescaping.
    pub fn text<'a>(self, name: &'a UnitName) -> &'a str
        ensures its_text { result.now ≡ specified_text name.now self }
    {
        match self {
            Specifier::Percent => "%",
            Specifier::WholeName => name.text(),
            Specifier::Stem => name.stem(),
            Specifier::Prefix | Specifier::PrefixUnescaped => name.prefix(),
            Specifier::Instance | Specifier::InstanceUnescaped => instance_text(name),
            Specifier::LastPart | Specifier::LastPartUnescaped => last_part(name.prefix()),
            Specifier::RuntimeFolder => "/run",
            Specifier::StateFolder => "/var/lib",
            Specifier::CacheFolder => "/var/cache",
            Specifier::LogFolder => "/var/log",
            Specifier::ConfigFolder => "/etc",
            Specifier::TemporaryFolder => "/tmp",
            Specifier::LastingTemporaryFolder => "/var/tmp",
            Specifier::UserName => "root",
            Specifier::UserNumber => "0",
            Specifier::HomeFolder => "/root",
            Specifier::NamedPath => name.instance().unwrap_or(name.prefix()),
            Specifier::GroupName => "root",
            Specifier::GroupNumber => "0",
            Specifier::Shell => "/bin/sh",
        }
    }
}

/// Returns whether a `%` and this character stay as they are written.
pub fn is_kept(systemd: Option<Version>, letter: u8) -> bool
    ensures makes_no_specifier { result ≡ is_kept systemd letter }
{
    systemd.is_some()
        && !HOST_LETTERS.contains(&letter)
        && Specifier::with_letter(systemd, letter).is_none()
}

// Returns the instance, or an empty text without one.
fn instance_text(name: &UnitName) -> &str
    ensures { result.now ≡ instance_text name.now }
{
    name.instance().unwrap_or("")
}

// Returns the prefix after its last dash, or the whole prefix if it has no dash.
fn last_part(prefix: &str) -> &str
    ensures { result.now ≡ last_part prefix.now }
{
    match prefix.rsplit_once('-') {
        Some((_, last)) => last,
        None => prefix,
    }
}
