//! Finds a row by the text of a path that is never built: a front and the rest after it.

ghost use Rattle.std.specs.Prelude.{◌≡◌, ◌++◌, IsTrue, length};
ghost use Rattle.std.specs.Ordering.{nat_cmp};
ghost use Rattle.std.specs.Cmp.Lexicographic.{slice_cmp};
ghost use Rattle.abs_path.specs.Paths.{tail_of, is_normal};
ghost use Rattle.site_table.specs.Order.{AreOrdered, Searches, IsGap};

use crate::paths::tail;
use crate::row::Row;
use abs_path::AbsPath;
use std::cmp::Ordering;

// compares a text in byte order with two other texts, one after the other
fn order_of(text: &[u8], front: &[u8], rest: &[u8]) -> Ordering
    ensures { result ≡ slice_cmp nat_cmp text.now (front.now ++ rest.now) }
{
    if text.len() < front.len() {
        let (start, _) = front.split_at(text.len());
        return text.cmp(start).then(Ordering::Less);
    }
    let (start, end) = text.split_at(front.len());
    start.cmp(front).then(end.cmp(rest))
}

// compares the path of a row in byte order with the two texts
fn row_order(row: &Row, front: &str, rest: &str) -> Ordering
    ensures { result ≡ slice_cmp nat_cmp (tail_of row.now.path) (front.now ++ rest.now) }
{
    order_of(
        tail(&row.path).as_bytes(),
        front.as_bytes(),
        rest.as_bytes(),
    )
}

// returns whether the two texts follow all rows, by a look at the last row
fn ends_before(rows: &[Row], front: &str, rest: &str) -> bool
    requires { AreOrdered rows.now }
    ensures { IsTrue result → IsGap rows.now (front.now ++ rest.now) (length rows.now) }
{
    match rows.last() {
        Some(last) => row_order(last, front, rest).is_lt(),
        None => true,
    }
}

/// Returns the place of the row whose path is the front with the rest after it, or the place for such a row. A row after all
/// others is placed at once.
pub fn search_text(rows: &[Row], front: &str, rest: &str) -> Result<usize, usize>
    requires { AreOrdered rows.now }
    ensures searches { Searches rows.now (front.now ++ rest.now) result }
{
    if ends_before(rows, front, rest) {
        return Err(rows.len());
    }
    rows.binary_search_by(|row| row_order(row, front, rest))
}

/// Returns the same for a path as the front.
pub fn search(rows: &[Row], front: &AbsPath, rest: &str) -> Result<usize, usize>
    requires { AreOrdered rows.now }
    ensures searches { Searches rows.now (tail_of front.now ++ rest.now) result }
    ensures normal { IsTrue (is_normal front.now) }
{
    search_text(rows, tail(front), rest)
}
