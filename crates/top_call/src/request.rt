//! What the words of the command line ask for.
ghost use Rattle.std.specs.Prelude.{◌≡◌, ◌≤◌, map, IfSome};
ghost use Rattle.std.specs.Option.{option_map};
ghost use Rattle.top_call.specs.Requests.{IsNumbered, number_to, request_above, request_alone, request_in, request_by, request_of, request_on, request_why, request_with};

use plan_command::read_decimal;

/// The request of the words.
#[derive(Clone, Copy)]
pub enum Request<'a> {
    /// What the program is for, and its words.
    Help,
    /// The name and the version.
    Version,
    /// The filters of a unit.
    Filter(&'a str),
    /// The mounts of a unit.
    Plan(&'a str),
    /// What the sandbox of a unit lets its service do.
    Judge(&'a str),
    /// What the sandbox of a unit, the first, answers to the calls of a script, the second.
    Replay(&'a str, &'a str),
    /// The least list of calls that a unit, the first, has to be allowed for a script, the second.
    Derive(&'a str, &'a str),
    /// What a drop-in, the second, opens or closes for a unit, the first.
    Effect(&'a str, &'a str),
    /// The settings that can be added to a unit, the first, while the questions of a file, the second, stay open.
    Tighten(&'a str, &'a str),
    /// Which lines of a unit, the first, deny a question, whose words are the second.
    Why(&'a str, &'a [&'a str]),
    /// What each line of a unit denies by itself.
    Lines(&'a str),
    /// The exposure of a unit, the first, by a policy, the second, and the threshold with which it is compared.
    Score(&'a str, &'a str, u32),
    /// Whether the program of a file, the third, decides every call as a filter, the second, of a unit, the first.
    Check(&'a str, &'a str, &'a str),
    /// The exposures of all units by a policy.
    Fleet(&'a str),
    /// How much of the made input of a number, 0 to 999, is denied.
    Sample(u32),
}

/// The greatest number of a made input.
const LAST_SAMPLE: u32 = 999;

/// The threshold of a score if the words give none: no exposure is above it.
const MOST_EXPOSURE: u32 = 100;

// The request of a word by itself.
fn request_alone<'a>(word: &str) -> Option<Request<'a>>
    ensures request { option_map request_of result ≡ request_alone word.now }
    ensures numbered { IfSome result IsNumbered }
{
    match word {
        "--help" => Some(Request::Help),
        "--version" => Some(Request::Version),
        _ => None,
    }
}

// A threshold: decimal, 0 to 100.
fn threshold_of(text: &str) -> Option<u32>
    ensures { result ≡ number_to text.now 100 }
{
    let number = read_decimal(text)?;
    if number <= u64::from(MOST_EXPOSURE) {
        Some(number as u32)
    } else {
        None
    }
}

// The number of a made input: decimal, 0 to 999.
fn sample_of(text: &str) -> Option<u32>
    ensures number { result ≡ number_to text.now 999 }
    ensures in_range { IfSome result (λ number. number ≤ 999) }
{
    let number = read_decimal(text)?;
    if number <= u64::from(LAST_SAMPLE) {
        Some(number as u32)
    } else {
        None
    }
}

// The request of a word about a unit, about all units by a policy, or about the number of a made input.
fn request_on<'a>(word: &str, what: &'a str) -> Option<Request<'a>>
    ensures request { option_map request_of result ≡ request_on word.now what.now }
    ensures numbered { IfSome result IsNumbered }
{
    match word {
        "filter" => Some(Request::Filter(what)),
        "plan" => Some(Request::Plan(what)),
        "judge" => Some(Request::Judge(what)),
        "why" => Some(Request::Lines(what)),
        "fleet" => Some(Request::Fleet(what)),
        "sample" => Some(Request::Sample(sample_of(what)?)),
        _ => None,
    }
}

// The request of a word about a unit and a file.
fn request_with<'a>(word: &str, unit: &'a str, path: &'a str) -> Option<Request<'a>>
    ensures request { option_map request_of result ≡ request_with word.now unit.now path.now }
    ensures numbered { IfSome result IsNumbered }
{
    match word {
        "replay" => Some(Request::Replay(unit, path)),
        "derive" => Some(Request::Derive(unit, path)),
        "effect" => Some(Request::Effect(unit, path)),
        "tighten" => Some(Request::Tighten(unit, path)),
        "score" => Some(Request::Score(unit, path, MOST_EXPOSURE)),
        _ => None,
    }
}

// The request of a word about a unit, a file and a threshold, or about a unit, a filter and a file.
fn request_above<'a>(word: &str, unit: &'a str, what: &'a str, last: &'a str) -> Option<Request<'a>>
    ensures request { option_map request_of result ≡ request_above word.now unit.now what.now last.now }
    ensures numbered { IfSome result IsNumbered }
{
    match word {
        "score" => Some(Request::Score(unit, what, threshold_of(last)?)),
        "check" => Some(Request::Check(unit, what, last)),
        _ => None,
    }
}

// The request of `why`, a unit and the words of a question, one or more.
fn request_why<'a>(words: &'a [&'a str]) -> Option<Request<'a>>
    ensures request { option_map request_of result ≡ request_why (map (λ word. word.now) words.now) }
    ensures numbered { IfSome result IsNumbered }
{
    if words.len() < 3 || words[0] != "why" {
        return None;
    }
    Some(Request::Why(words[1], &words[2..]))
}

// The request of other words, by how many they are.
fn request_by<'a>(words: &[&'a str]) -> Option<Request<'a>>
    ensures request { option_map request_of result ≡ request_by (map (λ word. word.now) words.now) }
    ensures numbered { IfSome result IsNumbered }
{
    match words {
        [word] => request_alone(word),
        [word, what] => request_on(word, what),
        [word, unit, path] => request_with(word, unit, path),
        [word, unit, what, last] => request_above(word, unit, what, last),
        _ => None,
    }
}

/// The request of the words, or none where they are no command.
pub fn parse<'a>(words: &'a [&'a str]) -> Option<Request<'a>>
    ensures request { option_map request_of result ≡ request_in (map (λ word. word.now) words.now) }
    ensures numbered { IfSome result IsNumbered }
{
    match request_why(words) {
        Some(request) => Some(request),
        None => request_by(words),
    }
}
