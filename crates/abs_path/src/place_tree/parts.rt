//! Takes the parts of a path one after the other from the path's own text.

ghost use Rattle.std.specs.Prelude.{◌≡◌, ◌∷◌, [], ◌<◌, length, MatchOption};
ghost use Rattle.abs_path.specs.Paths.{parts_of, is_idle};

// Returns whether a piece between slashes is no part.
fn is_idle(piece: &str) -> bool
    ensures { result ≡ is_idle piece.now }
{
    piece == "" || piece == "."
}

// Returns the first part of a text, and the text after it.
pub(crate) fn next_part(text: &str) -> Option<(&str, &str)>
    ensures first_and_rest { MatchOption result (parts_of text.now ≡ [])
        (λ both. parts_of text.now ≡ both.0.now ∷ parts_of both.1.now) }
    ensures shorter { MatchOption result (Unit {0}) (λ both. length both.1.now < length text.now) }
{
    match text.split_once('/') {
        Some((piece, rest)) => {
            if is_idle(piece) {
                next_part(rest)
            } else {
                Some((piece, rest))
            }
        }
        None => {
            if is_idle(text) {
                None
            } else {
                Some((text, ""))
            }
        }
    }
}
