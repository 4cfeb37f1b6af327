//! Keeps a short text in place, so that most paths take no memory beside their own. Copies of a long text share its bytes.

ghost use Rattle.std.specs.Prelude.{◌≡◌, ◌++◌, [], length, IfOk, IfSome, string_bytes};
ghost use Rattle.abs_path.specs.Held.{bytes_of};

use arrayvec::ArrayString;
use std::alloc::{AllocError, Global};
use std::marker::Model;
use std::rc::Rc;

/// The most bytes of a text that is held in place.
const IN_PLACE: usize = 16;

/// A text whose copies share its bytes. The length is at hand, so that lengths are compared without a look at the bytes.
#[derive(Drop)]
struct Shared {
    len: usize,
    text: Rc<String>,
}

impl Model for Shared {
    ghost use Rattle.std.specs.Prelude.{◌≡◌, List, ℕ, length, string_bytes};

    ghost Value = { List ℕ };

    ghost view = { λ shared. string_bytes shared.text.value };

    ghost invariant = { λ shared. shared.len ≡ length (string_bytes shared.text.value) };
}

impl Shared {
    /// Shares the bytes of a string.
    fn new(text: String) -> Result<Shared, AllocError>
        ensures { IfOk result (λ shared. shared ≡ string_bytes text) }
    {
        let alloc = *text.allocator();
        let len = text.as_str().len();
        match Rc::new(alloc, text) {
            Ok(text) => Ok(Shared { len, text }),
            Err(_) => Err(AllocError),
        }
    }

    /// Returns a text with the same bytes, which it shares.
    #[inline]
    fn share(&self) -> Result<Shared, AllocError>
        ensures { IfOk result (λ shared. shared ≡ self.now) }
    {
        Ok(Shared {
            len: self.len,
            text: self.text.clone()?,
        })
    }
}

#[derive(Drop)]
enum Held {
    Short(ArrayString<IN_PLACE>),
    Long(Shared),
}

/// A text, which is held in place if it has at most 16 bytes. A contract sees its bytes.
#[derive(Drop)]
pub(crate) struct Text {
    held: Held,
}

impl Model for Text {
    ghost use Rattle.std.specs.Prelude.{List, ℕ};
    ghost use Rattle.abs_path.specs.Held.{bytes_of};

    ghost Value = { List ℕ };

    ghost view = { λ text. bytes_of text.held };
}

impl Text {
    /// Returns an empty text.
    pub(crate) fn empty() -> Text
        ensures { result ≡ [] }
    {
        Text {
            held: Held::Short(ArrayString::new()),
        }
    }

    /// Returns the text of a string.
    pub(crate) fn of(text: String) -> Result<Text, AllocError>
        ensures { IfOk result (λ held. held ≡ string_bytes text) }
    {
        let held = match short(text.as_str()) {
            Some(short) => Held::Short(short),
            None => Held::Long(Shared::new(text)?),
        };
        Ok(Text { held })
    }

    /// Returns a text with the same bytes.
    pub(crate) fn read(alloc: Global, text: &str) -> Result<Text, AllocError>
        ensures { IfOk result (λ read. read ≡ text.now) }
    {
        let held = match short(text) {
            Some(short) => Held::Short(short),
            None => Held::Long(Shared::new(String::from_str(alloc, text)?)?),
        };
        Ok(Text { held })
    }

    /// Returns the text with a rest after it.
    #[inline]
    pub(crate) fn with_rest(&self, alloc: Global, rest: &str) -> Result<Text, AllocError>
        ensures { IfOk result (λ text. text ≡ self.now ++ rest.now) }
    {
        let held = match short_with_rest(&self.held, rest) {
            Some(short) => Held::Short(short),
            None => Held::Long(Shared::new(joined(alloc, self.as_str(), rest)?)?),
        };
        Ok(Text { held })
    }

    /// Returns a copy of the text. It shares the bytes of a long one.
    #[inline]
    pub(crate) fn copy(&self) -> Result<Text, AllocError>
        ensures { IfOk result (λ text. text ≡ self.now) }
    {
        let held = match &self.held {
            Held::Short(text) => Held::Short(*text),
            Held::Long(text) => Held::Long(text.share()?),
        };
        Ok(Text { held })
    }

    /// Returns how many bytes the text has.
    #[inline(always)]
    pub(crate) fn len(&self) -> usize
        ensures { result ≡ length self.now }
    {
        match &self.held {
            Held::Short(text) => text.len(),
            Held::Long(text) => text.len,
        }
    }

    #[inline(always)]
    pub(crate) fn as_str(&self) -> &str
        ensures { result.now ≡ self.now }
    {
        match &self.held {
            Held::Short(text) => text.as_str(),
            Held::Long(text) => text.text.as_str(),
        }
    }
}

// returns the text in place, if it is short enough
fn short(text: &str) -> Option<ArrayString<IN_PLACE>>
    ensures { IfSome result (λ short. short.bytes ≡ text.now) }
{
    ArrayString::from(text).ok()
}

// returns the text with a rest after it in place, if the two are short enough
fn short_with_rest(front: &Held, rest: &str) -> Option<ArrayString<IN_PLACE>>
    ensures { IfSome result (λ short. short.bytes ≡ bytes_of front.now ++ rest.now) }
{
    let Held::Short(front) = front else {
        return None;
    };
    let mut text = *front;
    match text.try_push_str(rest) {
        Ok(()) => Some(text),
        Err(_) => None,
    }
}

fn joined(alloc: Global, front: &str, rest: &str) -> Result<String, AllocError>
    ensures { IfOk result (λ text. string_bytes text ≡ front.now ++ rest.now) }
{
    let mut text = String::with_capacity(alloc, front.len() + rest.len())?;
    text.push_str(front)?;
    text.push_str(rest)?;
    Ok(text)
}
