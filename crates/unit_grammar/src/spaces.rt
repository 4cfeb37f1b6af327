// Finds white space at the ends of a text, and backslashes at its end.
//
// It cuts a text beside ASCII bytes only, so that the rest is still text.
ghost use Rattle.std.specs.Prelude.{◌≡◌, ◌==◌, ◌%◌, true};
ghost use Rattle.std.specs.List.{prefix_len, suffix_len};
ghost use Rattle.unit_grammar.specs.Spaces.{is_white, is_backslash, trim_start, trim_end, trim, continues, without_last, is_comment};

fn is_white_byte(byte: u8) -> bool
    ensures { result ≡ is_white byte }
{
    byte == b' ' || byte == b'\t' || byte == b'\r'
}

fn leading_white(text: &[u8]) -> usize
    ensures { result ≡ prefix_len is_white text.now }
{
    text.iter().take_while(|byte| is_white_byte(**byte)).count()
}

fn trailing_white(text: &[u8]) -> usize
    ensures { result ≡ suffix_len is_white text.now }
{
    text.iter()
        .rev()
        .take_while(|byte| is_white_byte(**byte))
        .count()
}

fn trailing_backslashes(text: &[u8]) -> usize
    ensures { result ≡ suffix_len is_backslash text.now }
{
    text.iter().rev().take_while(|byte| **byte == b'\\').count()
}

/// Returns the text without its leading white space.
pub fn trimmed_start(text: &str) -> &str
    ensures start_trimmed { result.now ≡ trim_start text.now }
{
    &text[leading_white(text.as_bytes())..]
}

/// Returns the text without its trailing white space.
pub fn trimmed_end(text: &str) -> &str
    ensures end_trimmed { result.now ≡ trim_end text.now }
{
    &text[..text.len() - trailing_white(text.as_bytes())]
}

/// Returns the text without white space at its ends.
pub fn trimmed(text: &str) -> &str
    ensures both_trimmed { result.now ≡ trim text.now }
{
    trimmed_end(trimmed_start(text))
}

/// Returns whether a line continues in the next.
pub fn continues_line(line: &str) -> bool
    ensures ends_open { result ≡ continues line.now }
{
    trailing_backslashes(line.as_bytes()) % 2 == 1
}

/// Returns the text without its last byte, which is a backslash.
pub fn without_backslash(line: &str) -> &str
    requires { continues line.now ≡ true }
    ensures last_left_out { result.now ≡ without_last line.now }
{
    &line[..line.len() - 1]
}

/// Returns whether a line without leading white space is a comment.
pub fn is_comment_line(line: &str) -> bool
    ensures by_its_first_mark { result ≡ is_comment line.now }
{
    matches!(line.as_bytes(), [b'#' | b';', ..])
}
