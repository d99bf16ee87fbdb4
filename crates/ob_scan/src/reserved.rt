//! Reserved words by their first letters: one table, which the definition `reserved_with` has too.

ghost use Rattle.std.specs.Prelude.{◌≡◌, ◌<◌, length};
ghost use Rattle.ob_scan.specs.Tables.{is_same, reserved_of, reserved_with};

use ob_symbol::Reserved;

/// The variant beside the word's spelling in a table, if the word stands there.
macro_rules! in_table {
    ($word:expr, $($spelling:literal => $reserved:ident),+ $(,)?) => {{
        $(
            if is_word($word, $spelling) {
                return Some(Reserved::$reserved);
            }
        )+
        None
    }};
}

/// Whether two words are the same: most differ in their lengths, and then no byte is looked at.
#[inline(always)]
fn is_word(word: &[u8], other: &[u8]) -> bool
    ensures { result ≡ is_same word.now other.now }
{
    word.len() == other.len() && word == other
}

/// The reserved word that these bytes are, if they are one that begins with this letter.
fn find_with(letter: u8, word: &[u8]) -> Option<Reserved>
    ensures { result ≡ reserved_with letter word.now }
{
    match letter {
        b'A' => in_table!(word, b"ARRAY" => ArrayWord),
        b'B' => in_table!(word, b"BEGIN" => BeginWord, b"BY" => ByWord),
        b'C' => in_table!(word, b"CASE" => CaseWord, b"CONST" => ConstWord),
        b'D' => in_table!(word, b"DIV" => DivWord, b"DO" => DoWord),
        b'E' => in_table!(word, b"ELSE" => ElseWord, b"ELSIF" => ElsifWord, b"END" => EndWord),
        b'F' => in_table!(word, b"FALSE" => FalseWord, b"FOR" => ForWord),
        b'I' =>
            in_table!(word, b"IF" => IfWord, b"IMPORT" => ImportWord, b"IN" => InWord, b"IS" => IsWord),
        b'M' => in_table!(word, b"MOD" => ModWord, b"MODULE" => ModuleWord),
        b'N' => in_table!(word, b"NIL" => NilWord),
        b'O' => in_table!(word, b"OF" => OfWord, b"OR" => OrWord),
        b'P' => in_table!(word, b"POINTER" => PointerWord, b"PROCEDURE" => ProcedureWord),
        b'R' =>
            in_table!(word, b"RECORD" => RecordWord, b"REPEAT" => RepeatWord, b"RETURN" => ReturnWord),
        b'T' =>
            in_table!(word, b"THEN" => ThenWord, b"TO" => ToWord, b"TRUE" => TrueWord, b"TYPE" => TypeWord),
        b'U' => in_table!(word, b"UNTIL" => UntilWord),
        b'V' => in_table!(word, b"VAR" => VarWord),
        b'W' => in_table!(word, b"WHILE" => WhileWord),
        _ => None,
    }
}

/// The reserved word that these bytes are, if they are one; case counts. (Oberon-07 report, section 3.)
///
/// A word is compared with those alone that begin as it does.
pub fn find_reserved(word: &[u8]) -> Option<Reserved>
    requires { 0 < length word.now }
    ensures { result ≡ reserved_of word.now }
{
    find_with(word[0], word)
}
