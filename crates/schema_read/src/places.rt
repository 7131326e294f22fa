//! The line and the column of a place in a text.

ghost use Rattle.std.specs.Prelude.{◌≡◌, ◌≤◌, ◌+◌, length};
ghost use Rattle.schema_read.specs.Places.{line_behind, column_behind, text_end};

use dt_model::{CARRIAGE_RETURN, LINE_FEED};

/// The line of what stands behind some bytes. Lines count from 1.
pub(crate) fn line_behind(front: &[u8]) -> usize
    ensures value { result ≡ line_behind front.now }
    ensures within { result ≤ length front.now + 1 }
{
    let mut line = 1;
    for byte in front {
        if *byte == LINE_FEED {
            line += 1;
        }
    }
    line
}

/// The column of what stands behind some bytes. Columns count from 1.
pub(crate) fn column_behind(front: &[u8]) -> usize
    ensures value { result ≡ column_behind front.now }
    ensures within { result ≤ length front.now + 1 }
{
    let mut start = front.len();
    while start > 0 && front[start - 1] != LINE_FEED {
        start -= 1;
    }
    front.len() - start + 1
}

/// The place behind the last byte of a text, which has one carriage return at its end dropped.
pub(crate) fn text_end(text: &[u8]) -> usize
    ensures value { result ≡ text_end text.now }
    ensures within { result ≤ length text.now }
{
    match text {
        [front @ .., CARRIAGE_RETURN] => front.len(),
        _ => text.len(),
    }
}
