// The tokens of sources, as text.

use ppd_ast::Place;
use ppd_parse::{Kind, LexError, Token, TokenKind, lex};
use std::alloc::{AllocError, Global};

/// The kind of a mark.
fn mark(kind: Kind) -> &'static str {
    match kind {
        Kind::OrMark => "OrMark",
        Kind::AndMark => "AndMark",
        Kind::EqualMark => "EqualMark",
        Kind::UnequalMark => "UnequalMark",
        Kind::AtMostMark => "AtMostMark",
        Kind::AtLeastMark => "AtLeastMark",
        Kind::LessMark => "LessMark",
        Kind::MoreMark => "MoreMark",
        Kind::PlusMark => "PlusMark",
        Kind::MinusMark => "MinusMark",
        Kind::StarMark => "StarMark",
        Kind::SlashMark => "SlashMark",
        Kind::PercentMark => "PercentMark",
        Kind::NotMark => "NotMark",
        Kind::AssignMark => "AssignMark",
        Kind::AddMark => "AddMark",
        Kind::SubtractMark => "SubtractMark",
        Kind::IncreaseMark => "IncreaseMark",
        Kind::DecreaseMark => "DecreaseMark",
        Kind::LeftParen => "LeftParen",
        Kind::RightParen => "RightParen",
        Kind::LeftBrace => "LeftBrace",
        Kind::RightBrace => "RightBrace",
        Kind::LeftBracket => "LeftBracket",
        Kind::RightBracket => "RightBracket",
        Kind::Semicolon => "Semicolon",
        Kind::Comma => "Comma",
        _ => "?",
    }
}

/// The kind of a keyword or of a mark.
fn word(kind: Kind) -> &'static str {
    match kind {
        Kind::SharedWord => "SharedWord",
        Kind::IntWord => "IntWord",
        Kind::VoidWord => "VoidWord",
        Kind::SemWord => "SemWord",
        Kind::ChanWord => "ChanWord",
        Kind::ProcessWord => "ProcessWord",
        Kind::IfWord => "IfWord",
        Kind::ElseWord => "ElseWord",
        Kind::WhileWord => "WhileWord",
        Kind::ForWord => "ForWord",
        Kind::ReturnWord => "ReturnWord",
        Kind::TakeWord => "TakeWord",
        Kind::GiveWord => "GiveWord",
        Kind::SendWord => "SendWord",
        Kind::RecvWord => "RecvWord",
        Kind::PrintWord => "PrintWord",
        Kind::AssertWord => "AssertWord",
        _ => mark(kind),
    }
}

/// A token in short: n and the length of a name, a number, the kind of a keyword or mark, or the place of the end.
fn told_token(alloc: Global, token: &Token) -> Result<String, AllocError> {
    match &token.kind {
        TokenKind::Name(name) => format!(in alloc; "n{}", name.len()),
        TokenKind::Number(value) => format!(in alloc; "{value}"),
        TokenKind::Word(kind) | TokenKind::Mark(kind) => word(*kind).to_string(alloc),
        TokenKind::End => format!(in alloc; "{}:{}", token.place.line, token.place.column),
    }
}

fn told_list(alloc: Global, tokens: &[Token]) -> Result<String, AllocError> {
    let mut text = String::new(alloc);
    for token in tokens {
        if !text.is_empty() {
            text.push_str(" ")?;
        }
        let told = told_token(alloc, token)?;
        text.push_str(&told)?;
    }
    Ok(text)
}

/// A fault and its place.
pub(crate) fn told_at(alloc: Global, word: &str, place: Place) -> Result<String, AllocError> {
    format!(in alloc; "{word} {}:{}", place.line, place.column)
}

pub(crate) fn told_error(alloc: Global, error: LexError) -> Result<String, AllocError> {
    match error {
        LexError::BadByte(place) => told_at(alloc, "BadByte", place),
        LexError::BadNumber(place) => told_at(alloc, "BadNumber", place),
        LexError::OpenComment(place) => told_at(alloc, "OpenComment", place),
        LexError::TooLong(place) => told_at(alloc, "TooLong", place),
        LexError::LongName(place) => told_at(alloc, "LongName", place),
        LexError::Memory => format!(in alloc; "inner memory"),
    }
}

/// The tokens of a source with blanks between them, or why it has none.
pub(crate) fn told_tokens(alloc: Global, source: &[u8]) -> Result<String, AllocError> {
    match lex(alloc, source) {
        Ok(tokens) => told_list(alloc, &tokens),
        Err(error) => told_error(alloc, error),
    }
}

/// A name as it stands, or another token in short.
fn told_kind(alloc: Global, token: &Token) -> Result<String, AllocError> {
    match &token.kind {
        TokenKind::Name(name) => std::str::from_utf8(name.as_slice())
            .unwrap_or("?")
            .to_string(alloc),
        _ => told_token(alloc, token),
    }
}

/// A token's bytes in the source from the first to behind the last, its place, and what it is.
fn told_field(alloc: Global, token: &Token) -> Result<String, AllocError> {
    let kind = told_kind(alloc, token)?;
    let place = token.place;
    format!(in alloc;
        "{}-{} {}:{} {kind}\n",
        token.from, token.to, place.line, place.column
    )
}

fn told_each(alloc: Global, tokens: &[Token]) -> Result<String, AllocError> {
    let mut text = String::new(alloc);
    for token in tokens {
        let told = told_field(alloc, token)?;
        text.push_str(&told)?;
    }
    Ok(text)
}

/// The fields of each token of a source, one a line, or why it has none.
pub(crate) fn told_fields(alloc: Global, source: &[u8]) -> Result<String, AllocError> {
    match lex(alloc, source) {
        Ok(tokens) => told_each(alloc, &tokens),
        Err(error) => told_error(alloc, error),
    }
}
