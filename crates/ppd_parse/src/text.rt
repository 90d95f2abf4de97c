// Classes of bytes, the tables of keywords and marks, and what some bytes are.
ghost use Rattle.std.specs.Prelude.{◌≡◌, ◌<◌, ◌≤◌, ◌+◌, ◌^◌, length, map, not, nat_eq, position, IfSome};
ghost use Rattle.std.specs.List.{prefix_len};
ghost use Rattle.std.specs.Str.{bytes_eq};
ghost use Rattle.ppd_parse.specs.Front.{is_space, is_letter, is_name_byte, keywords, marks, looked_up, value_of, number_of, close_from};

use crate::token::Kind;
use ppd_ast::is_digit;

// The keywords.
const KEYWORDS: [(&str, Kind); 17] = [
    ("shared", Kind::SharedWord),
    ("int", Kind::IntWord),
    ("void", Kind::VoidWord),
    ("sem", Kind::SemWord),
    ("chan", Kind::ChanWord),
    ("process", Kind::ProcessWord),
    ("if", Kind::IfWord),
    ("else", Kind::ElseWord),
    ("while", Kind::WhileWord),
    ("for", Kind::ForWord),
    ("return", Kind::ReturnWord),
    ("P", Kind::TakeWord),
    ("V", Kind::GiveWord),
    ("send", Kind::SendWord),
    ("recv", Kind::RecvWord),
    ("print", Kind::PrintWord),
    ("assert", Kind::AssertWord),
];

// The marks.
const MARKS: [(&str, Kind); 27] = [
    ("||", Kind::OrMark),
    ("&&", Kind::AndMark),
    ("==", Kind::EqualMark),
    ("!=", Kind::UnequalMark),
    ("<=", Kind::AtMostMark),
    (">=", Kind::AtLeastMark),
    ("<", Kind::LessMark),
    (">", Kind::MoreMark),
    ("+", Kind::PlusMark),
    ("-", Kind::MinusMark),
    ("*", Kind::StarMark),
    ("/", Kind::SlashMark),
    ("%", Kind::PercentMark),
    ("!", Kind::NotMark),
    ("=", Kind::AssignMark),
    ("+=", Kind::AddMark),
    ("-=", Kind::SubtractMark),
    ("++", Kind::IncreaseMark),
    ("--", Kind::DecreaseMark),
    ("(", Kind::LeftParen),
    (")", Kind::RightParen),
    ("{", Kind::LeftBrace),
    ("}", Kind::RightBrace),
    ("[", Kind::LeftBracket),
    ("]", Kind::RightBracket),
    (";", Kind::Semicolon),
    (",", Kind::Comma),
];

pub fn is_space(b: u8) -> bool
    ensures { result ≡ is_space b }
{
    (9..=13).contains(&b) || b == b' '
}

// A letter or `_`.
pub fn is_letter(b: u8) -> bool
    ensures { result ≡ is_letter b }
{
    b.is_ascii_alphabetic() || b == b'_'
}

fn is_name_byte(b: u8) -> bool
    ensures { result ≡ is_name_byte b }
{
    is_letter(b) || is_digit(b)
}

// How many bytes at the front may stand in a name.
pub fn name_len(bytes: &[u8]) -> usize
    ensures len { result ≡ prefix_len is_name_byte bytes.now }
    ensures within { result ≤ length bytes.now }
{
    bytes.iter().take_while(|b| is_name_byte(**b)).count()
}

// How many bytes stand before the end of the line.
pub fn line_len(bytes: &[u8]) -> usize
    ensures { result ≡ prefix_len (λ b. not (nat_eq b 10)) bytes.now }
{
    bytes.iter().take_while(|b| **b != b'\n').count()
}

// Where the table's first entry of this text stands.
fn index_in(table: &[(&str, Kind)], text: &[u8]) -> Option<usize>
    ensures { result ≡ position (λ entry. bytes_eq text.now entry.0.now) table.now }
{
    table.iter().position(|entry| text == entry.0.as_bytes())
}

// The kind of the table's first entry of this text.
fn kind_in(table: &[(&str, Kind)], text: &[u8]) -> Option<Kind>
    ensures { result ≡ looked_up (map (λ entry. (entry.0.now, entry.1)) table.now) text.now }
{
    match index_in(table, text) {
        Some(index) => Some(table[index].1),
        None => None,
    }
}

// The keyword that these bytes are.
pub fn keyword(text: &[u8]) -> Option<Kind>
    ensures { result ≡ looked_up keywords text.now }
{
    kind_in(&KEYWORDS, text)
}

// The mark that these bytes are.
pub fn mark(text: &[u8]) -> Option<Kind>
    ensures { result ≡ looked_up marks text.now }
{
    kind_in(&MARKS, text)
}

// The number that digits write, where it is at most 9223372036854775807.
fn value_of(digits: &[u8]) -> Option<u64>
    ensures value { result ≡ value_of digits.now }
    ensures small { IfSome result (λ value. value < 2 ^ 63) }
{
    let mut value: u64 = 0;
    for b in digits {
        if !is_digit(*b) {
            return None;
        }
        let digit = u64::from(*b - b'0');
        if value > (0x7fff_ffff_ffff_ffff - digit) / 10 {
            return None;
        }
        value = value * 10 + digit;
    }
    Some(value)
}

// The number that the text is, which has no needless 0.
pub fn number_of(text: &[u8]) -> Option<u64>
    ensures number { result ≡ number_of text.now }
    ensures small { IfSome result (λ value. value < 2 ^ 63) }
{
    match text {
        [] | [b'0', _, ..] => None,
        _ => value_of(text),
    }
}

// How many bytes there are up to the first `*/` and with it, after `before` bytes.
pub fn close_from(before: usize, bytes: &[u8]) -> Option<usize>
    requires { before + length bytes.now < 2 ^ 63 }
    ensures { result ≡ close_from before bytes.now }
{
    for i in 0..bytes.len() {
        if bytes[i..].starts_with(b"*/") {
            return Some(before + i + 2);
        }
    }
    None
}
