// The numbers among the words.
ghost use Rattle.std.specs.Prelude.{◌≡◌, ◌≤◌, IfSome};
ghost use Rattle.rx_words.specs.Number.{are_digits, is_digit, number_within};

/// The number of a word of digits, if it is one of those from `least` to `most`.
pub(crate) fn number_within(least: u64, most: u64, word: &str) -> Option<u64>
    ensures number { result ≡ number_within least most word.now }
    ensures within { IfSome result (λ n. n ≤ most) }
{
    if !are_digits(word.as_bytes()) {
        return None;
    }
    match word.parse::<u64>() {
        Ok(number) if (least..=most).contains(&number) => Some(number),
        _ => None,
    }
}

fn are_digits(word: &[u8]) -> bool
    ensures { result ≡ are_digits word.now }
{
    word.iter().all(|b| is_digit(*b))
}

fn is_digit(b: u8) -> bool
    ensures { result ≡ is_digit b }
{
    b.is_ascii_digit()
}
