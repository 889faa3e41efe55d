// Words as decimal numbers and as octets in lower-case hex.

#![tactic(auto)]

ghost use Rattle.std.specs.Prelude.{◌≡◌, ◌<◌, length, Some, None, IfSome, MatchOption};
ghost use Rattle.std.specs.Option.{option_map};
ghost use Rattle.console_numbers.specs.Numbers.{decimal_of, digit_of, next_of, octets_of, octets_up_to, at_front, mask_of};

// A word of decimal digits as a number, if it is one up to 65,535.
pub fn decimal(word: &[u8]) -> Option<u16>
    ensures { result ≡ decimal_of word.now }
{
    if !word.iter().all(|octet| octet.is_ascii_digit()) {
        return None;
    }
    std::str::from_utf8(word).ok()?.parse().ok()
}

// What a digit of lower-case hex says.
fn hex_digit(octet: u8) -> Option<u8>
    ensures value { result ≡ digit_of octet }
    ensures upper_bound { IfSome result (λ digit. digit < 16) }
{
    match octet {
        b'0'..=b'9' => Some(octet - b'0'),
        b'a'..=b'f' => Some(octet - b'a' + 10),
        _ => None,
    }
}

// The first octet that a word says in lower-case hex, and what is left of the word.
fn next_octet(word: &[u8]) -> Option<(u8, &[u8])>
    ensures { MatchOption result (next_of word.now ≡ None) (λ next. next_of word.now ≡ Some (next.0, next.1.now)) }
{
    let [high, low, rest @ ..] = word else {
        return None;
    };
    let octet = 16 * hex_digit(*high)? + hex_digit(*low)?;
    Some((octet, rest))
}

// How many octets a word says in lower-case hex, if it says one or more.
pub fn hex_len(word: &[u8]) -> Option<usize>
    ensures { result ≡ option_map length (octets_of word.now) }
{
    let mut count = 0;
    let mut left = word;
    while let Some((_, rest)) = next_octet(left) {
        count += 1;
        left = rest;
    }
    (count > 0 && left.is_empty()).then_some(count)
}

// The octets that a word says to the front of an area, and how many they are; nothing is written where there is no room for all of them.
pub fn hex_octets(word: &[u8], area: &mut [u8]) -> Option<usize>
    ensures value { result ≡ option_map length (octets_up_to (length area.old) word.now) }
    ensures after { area.new ≡ at_front (octets_up_to (length area.old) word.now) area.old }
{
    let count = hex_len(word)?;
    if area.len() < count {
        return None;
    }
    let mut left = word;
    for place in &mut area[..count] {
        if let Some((octet, rest)) = next_octet(left) {
            *place = octet;
            left = rest;
        }
    }
    Some(count)
}

// The octets of a mask.
pub fn mask(word: &[u8]) -> Option<[u8; 5]>
    ensures { result ≡ mask_of word.now }
{
    let mut octets = [0; 5];
    let count = hex_octets(word, &mut octets)?;
    (count == octets.len()).then_some(octets)
}
