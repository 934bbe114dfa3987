// The numbers that words spell. Casts lose nothing, which is proved; `TryFrom` would add a case that cannot come.
ghost use Rattle.std.specs.Prelude.{◌≡◌};
ghost use Rattle.script.specs.Numbers.{number_of, decibels_of};

// The number that a word spells in digits, where it is at most `most`.
pub fn number(word: &[u8], most: u32) -> Option<u32>
    ensures { result ≡ number_of most word.now }
{
    if word.is_empty() {
        return None;
    }
    let most = u64::from(most);
    let mut value: u64 = 0;
    for byte in word {
        if !byte.is_ascii_digit() {
            return None;
        }
        value = value * 10 + u64::from(*byte - b'0');
        if value > most {
            return None;
        }
    }
    Some(value as u32)
}

// The decibels that a word spells, from -128 to 127: a number, or one after a minus sign.
pub fn decibels(word: &[u8]) -> Option<i8>
    ensures { result ≡ decibels_of word.now }
{
    match word {
        [b'-', rest @ ..] => number(rest, 128).map(|n| (0 - n as i32) as i8),
        _ => number(word, 127).map(|n| n as i8),
    }
}
