//! Blanks and comments, which are before symbols and between them.

ghost use Rattle.std.specs.Prelude.{◌≡◌, zero, ◌<◌, ◌≤◌, length, drop, MatchOption, MatchResult, true, false};
ghost use Rattle.ob_scan.specs.Words.{begins_comment};
ghost use Rattle.ob_scan.specs.Steps.{Past, close};

use crate::classes::has_two;

/// Bytes from 0 to this one are blanks.
const LAST_BLANK: u8 = 32;

/// The place after a comment, from a place in it; `None` where it isn't closed.
fn comment_end(bytes: &[u8], from: usize) -> Option<usize>
    requires { from ≤ length bytes.now }
    ensures { MatchOption result (close zero (drop from bytes.now) ≡ None)
        (λ i. (close zero (drop from bytes.now) ≡ Some (drop i bytes.now))
        × (from ≤ i) × (i ≤ length bytes.now)) }
{
    let mut others: usize = 0;
    let mut i = from;
    'bytes: while i < bytes.len() {
        if has_two(bytes, i, b'(', b'*') {
            others += 1;
            i += 2;
        } else if has_two(bytes, i, b'*', b')') {
            i += 2;
            if others == 0 {
                return Some(i);
            }
            others -= 1;
        } else {
            i += 1;
        }
    }
    None
}

/// The place after blanks and comments, or that of a comment that isn't closed.
pub fn skip(bytes: &[u8], at: usize) -> Result<usize, usize>
    requires { at ≤ length bytes.now }
    ensures past { MatchResult result (λ i. Past (drop at bytes.now) (drop i bytes.now)) (λ i. Past (drop at bytes.now) (drop i bytes.now)) }
    ensures range { MatchResult result (λ i. (at ≤ i) × (i ≤ length bytes.now)) (λ i. (at ≤ i) × (i < length bytes.now)) }
    ensures comment { MatchResult result (λ i. begins_comment (drop i bytes.now) ≡ false) (λ i. begins_comment (drop i bytes.now) ≡ true) }
{
    let mut i = at;
    'bytes: while i < bytes.len() {
        if bytes[i] <= LAST_BLANK {
            i += 1;
        } else if has_two(bytes, i, b'(', b'*') {
            match comment_end(bytes, i + 2) {
                Some(end) => {
                    i = end;
                }
                None => {
                    return Err(i);
                }
            }
        } else {
            return Ok(i);
        }
    }
    Ok(i)
}
