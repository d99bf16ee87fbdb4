//! The words in which symbols are written here.

use ob_symbol::{Delimiter, Kind, Reserved};

/// The kind of symbol that a word stands for.
pub fn kind_of(word: &str) -> Option<Kind> {
    match word {
        "ident" => Some(Kind::Ident),
        "integer" => Some(Kind::Int(1)),
        "char" => Some(Kind::Char(65)),
        "string" => Some(Kind::Text),
        _ => match reserved_of(word) {
            Some(reserved) => Some(Kind::Word(reserved)),
            None => delimiter_of(word).map(Kind::Mark),
        },
    }
}

fn reserved_of(word: &str) -> Option<Reserved> {
    let reserved = match word {
        "ARRAY" => Reserved::ArrayWord,
        "BEGIN" => Reserved::BeginWord,
        "BY" => Reserved::ByWord,
        "CASE" => Reserved::CaseWord,
        "CONST" => Reserved::ConstWord,
        "DIV" => Reserved::DivWord,
        "DO" => Reserved::DoWord,
        "ELSE" => Reserved::ElseWord,
        "ELSIF" => Reserved::ElsifWord,
        "END" => Reserved::EndWord,
        "FALSE" => Reserved::FalseWord,
        "FOR" => Reserved::ForWord,
        "IF" => Reserved::IfWord,
        "IMPORT" => Reserved::ImportWord,
        "IN" => Reserved::InWord,
        "IS" => Reserved::IsWord,
        "MOD" => Reserved::ModWord,
        "MODULE" => Reserved::ModuleWord,
        "NIL" => Reserved::NilWord,
        "OF" => Reserved::OfWord,
        "OR" => Reserved::OrWord,
        "POINTER" => Reserved::PointerWord,
        "PROCEDURE" => Reserved::ProcedureWord,
        "RECORD" => Reserved::RecordWord,
        "REPEAT" => Reserved::RepeatWord,
        "RETURN" => Reserved::ReturnWord,
        "THEN" => Reserved::ThenWord,
        "TO" => Reserved::ToWord,
        "TRUE" => Reserved::TrueWord,
        "TYPE" => Reserved::TypeWord,
        "UNTIL" => Reserved::UntilWord,
        "VAR" => Reserved::VarWord,
        "WHILE" => Reserved::WhileWord,
        _ => return None,
    };
    Some(reserved)
}

fn delimiter_of(word: &str) -> Option<Delimiter> {
    let delimiter = match word {
        "+" => Delimiter::Plus,
        "-" => Delimiter::Minus,
        "*" => Delimiter::Times,
        "/" => Delimiter::Slash,
        "~" => Delimiter::Tilde,
        "&" => Delimiter::Ampersand,
        "." => Delimiter::Period,
        "," => Delimiter::Comma,
        ";" => Delimiter::Semicolon,
        "|" => Delimiter::Bar,
        "(" => Delimiter::LeftParen,
        "[" => Delimiter::LeftBracket,
        "{" => Delimiter::LeftBrace,
        ":=" => Delimiter::Becomes,
        "^" => Delimiter::Arrow,
        "=" => Delimiter::Equal,
        "#" => Delimiter::NotEqual,
        "<" => Delimiter::Less,
        ">" => Delimiter::Greater,
        "<=" => Delimiter::LessEqual,
        ">=" => Delimiter::GreaterEqual,
        ".." => Delimiter::Range,
        ":" => Delimiter::Colon,
        ")" => Delimiter::RightParen,
        "]" => Delimiter::RightBracket,
        "}" => Delimiter::RightBrace,
        _ => return None,
    };
    Some(delimiter)
}
