// Numbers and names that stand in words, a byte to a word, the lowest byte first.
ghost use Rattle.std.specs.Prelude.{◌+◌, ◌^◌, ◌<◌, ◌≤◌, length, IfSome, MatchOption};
ghost use Rattle.printing.specs.Words.{value_at, NumberAt, NameAt, PastNames};

use std::ops::Range;

// The number of four bytes that stands at `at`, if there are four. Each stands in a word of its own, which from_le_bytes does not read.
pub fn four(words: &[u64], at: usize) -> Option<usize>
    ensures { MatchOption result (length words.now < at + 4) (λ n. (n < 2 ^ 32) × NumberAt words.now at 4 n) }
{
    if words.len() < 4 || at > words.len() - 4 {
        return None;
    }
    let high = (words[at + 2] & 255) + 256 * (words[at + 3] & 255);
    let number = (words[at] & 255) + 256 * ((words[at + 1] & 255) + 256 * high);
    Some(number as usize)
}

// The number of eight bytes that stands at `at`, if there are eight.
pub fn eight(words: &[u64], at: usize) -> Option<u64>
    ensures { MatchOption result (length words.now < at + 8) (λ n. NumberAt words.now at 8 n) }
{
    let low = four(words, at)?;
    let high = four(words, at + 4)?;
    Some(low as u64 + 4294967296 * high as u64)
}

// Where the bytes of the name at `at` stand, after its length, if they are there.
pub fn name(words: &[u64], at: usize) -> Option<Range<usize>>
    ensures { MatchOption result (length words.now < at + 4 + value_at words.now at 4) (λ s. NameAt words.now at s) }
{
    let count = four(words, at)?;
    let from = at + 4;
    if words.len() - from < count {
        return None;
    }
    Some(from..from + count)
}

// Where as many names as that end, if they are there.
pub fn after_names(words: &[u64], at: usize, count: usize) -> Option<usize>
    requires { at ≤ length words.now }
    ensures ends { IfSome result (λ e. (at ≤ e) × (e ≤ length words.now)) }
    ensures past { PastNames words.now at count result }
{
    let mut end = at;
    for i in 0..count {
        let span = name(words, end)?;
        end = span.end;
    }
    Some(end)
}
