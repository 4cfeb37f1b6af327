//! Reads the marks in front of a path: `-` and `+`.

ghost use Rattle.std.specs.Prelude.{◌≡◌};
ghost use Rattle.path_settings.specs.Marks.{is_marked, without};

/// Returns whether a word begins with `-`, which makes its mention optional.
pub(crate) fn is_marked(word: &str) -> bool
    ensures { result ≡ is_marked word.now }
{
    word.as_bytes().starts_with(b"-")
}

/// Returns a word without this prefix, or the word itself if it does not begin with it.
pub(crate) fn without<'a>(front: &str, word: &'a str) -> &'a str
    ensures { result.now ≡ without front.now word.now }
{
    word.strip_prefix(front).unwrap_or(word)
}
