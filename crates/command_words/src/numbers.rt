//! Numbers in words.
ghost use Rattle.std.specs.Prelude.{◌≡◌};
ghost use Rattle.std.specs.Char.{is_ascii_digit};
ghost use Rattle.std.specs.List.{list_all};
ghost use Rattle.command_words.specs.Numbers.{is_number, within, number_in};

fn are_digits(word: &[u8]) -> bool
    ensures { result ≡ list_all is_ascii_digit word.now }
{
    word.iter().all(|b| b.is_ascii_digit())
}

/// The word is decimal digits, with no sign and with no 0 before others.
fn is_number(word: &[u8]) -> bool
    ensures { result ≡ is_number word.now }
{
    if word.is_empty() || !are_digits(word) {
        return false;
    }
    word.len() == 1 || word[0] != b'0'
}

/// The number, where it is from `low` to `high`.
fn within(low: u64, high: u64, number: u64) -> Option<u64>
    ensures { result ≡ within low high number }
{
    if low <= number && number <= high {
        Some(number)
    } else {
        None
    }
}

/// The number that the word is, None where it is none from `low` to `high`.
pub fn number_in(low: u64, high: u64, word: &str) -> Option<u64>
    ensures { result ≡ number_in low high word.now }
{
    if !is_number(word.as_bytes()) {
        return None;
    }
    match word.parse::<u64>() {
        Ok(number) => within(low, high, number),
        Err(_) => None,
    }
}
