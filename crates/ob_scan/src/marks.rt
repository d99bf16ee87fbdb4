//! Operators and delimiters: one table, which the definitions `one_mark` and `two_mark` have too.

ghost use Rattle.std.specs.Prelude.{◌≡◌, ◌<◌, length, drop};
ghost use Rattle.ob_scan.specs.Tables.{one_mark, two_mark};
ghost use Rattle.ob_scan.specs.Steps.{two_at};

use ob_symbol::Delimiter;

/// The operator or delimiter of one byte.
pub fn one_byte(a: u8) -> Option<Delimiter>
    ensures { result ≡ one_mark a }
{
    match a {
        b'+' => Some(Delimiter::Plus),
        b'-' => Some(Delimiter::Minus),
        b'*' => Some(Delimiter::Times),
        b'/' => Some(Delimiter::Slash),
        b'~' => Some(Delimiter::Tilde),
        b'&' => Some(Delimiter::Ampersand),
        b'.' => Some(Delimiter::Period),
        b',' => Some(Delimiter::Comma),
        b';' => Some(Delimiter::Semicolon),
        b'|' => Some(Delimiter::Bar),
        b'(' => Some(Delimiter::LeftParen),
        b'[' => Some(Delimiter::LeftBracket),
        b'{' => Some(Delimiter::LeftBrace),
        b'^' => Some(Delimiter::Arrow),
        b'=' => Some(Delimiter::Equal),
        b'#' => Some(Delimiter::NotEqual),
        b'<' => Some(Delimiter::Less),
        b'>' => Some(Delimiter::Greater),
        b':' => Some(Delimiter::Colon),
        b')' => Some(Delimiter::RightParen),
        b']' => Some(Delimiter::RightBracket),
        b'}' => Some(Delimiter::RightBrace),
        _ => None,
    }
}

/// The operator of two bytes.
pub fn two_bytes(a: u8, b: u8) -> Option<Delimiter>
    ensures { result ≡ two_mark a b }
{
    match (a, b) {
        (b':', b'=') => Some(Delimiter::Becomes),
        (b'<', b'=') => Some(Delimiter::LessEqual),
        (b'>', b'=') => Some(Delimiter::GreaterEqual),
        (b'.', b'.') => Some(Delimiter::Range),
        _ => None,
    }
}

/// The operator of two bytes that stands here.
pub fn mark_of_two(bytes: &[u8], at: usize) -> Option<Delimiter>
    requires { at < length bytes.now }
    ensures { result ≡ two_at (drop at bytes.now) }
{
    if bytes.len() - at >= 2 {
        two_bytes(bytes[at], bytes[at + 1])
    } else {
        None
    }
}
