// Numbers in words.
ghost use Rattle.std.specs.Prelude.{◌≡◌, ◌≤◌, length};
ghost use Rattle.std.specs.List.{list_all};
ghost use Rattle.std.specs.Char.{is_ascii_digit};
ghost use Rattle.ppd_ast.specs.Digits.{number_in as number_of, value_from};

use ppd_ast::is_digit;

/// The value of digits, at most 9.
fn value_of(digits: &[u8]) -> u64
    requires { length digits.now ≤ 9 }
    ensures { result ≡ value_from 0 digits.now }
{
    let mut value: u64 = 0;
    for digit in digits {
        value = value * 10 + u64::from(digit.saturating_sub(b'0'));
    }
    value
}

fn are_digits(word: &[u8]) -> bool
    ensures { result ≡ list_all is_ascii_digit word.now }
{
    word.iter().all(|byte| is_digit(*byte))
}

/// The number that a word is, in 1 to 9 digits, of which the first may be zeros.
pub fn number_in(word: &[u8]) -> Option<u64>
    ensures { result ≡ number_of word.now }
{
    if word.is_empty() || word.len() > 9 {
        return None;
    }
    if !are_digits(word) {
        return None;
    }
    Some(value_of(word))
}
