// A line of a console script as words that are separated by single spaces.

#![tactic(auto)]

ghost use Rattle.std.specs.Prelude.{◌≡◌, length};
ghost use Rattle.std.specs.Option.{option_copied};
ghost use Rattle.console_words.specs.Words.{words, word_of};

// Word i of a line, counted from 0, if it has so many.
pub fn word(line: &[u8], i: usize) -> Option<&[u8]>
    ensures { option_copied result ≡ word_of line.now i }
{
    line.split(|octet| *octet == b' ').nth(i)
}

// How many words a line has: one more than spaces.
pub fn word_count(line: &[u8]) -> usize
    ensures { result ≡ length (words line.now) }
{
    line.split(|octet| *octet == b' ').count()
}
