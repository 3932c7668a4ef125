// Numbers of four and eight bytes, the lowest first.
ghost use Rattle.std.specs.Prelude.{◌≡◌, ◌≤◌, length, take, MatchResult};
ghost use Rattle.format.specs.Coding.{number as numbers};
ghost use Rattle.format.specs.Reading.{Begins, Stuck};

// The first N bytes, or where the bytes end too soon.
fn front<const N: usize>(bytes: &[u8]) -> Result<&[u8; N], usize>
    ensures { MatchResult result (λ a. (N ≤ length bytes.now) × (a.now ≡ take N bytes.now)) (λ p. Stuck (numbers N) bytes.now p) }
{
    bytes.first_chunk().ok_or(bytes.len())
}

// A number of four bytes, or where the bytes end too soon.
pub fn read_u32(bytes: &[u8]) -> Result<usize, usize>
    ensures { MatchResult result (λ n. Begins (numbers 4) bytes.now 4 n) (λ p. Stuck (numbers 4) bytes.now p) }
{
    Ok(u32::from_le_bytes(*front(bytes)?) as usize)
}

// A number of eight bytes, or where the bytes end too soon.
pub fn read_u64(bytes: &[u8]) -> Result<u64, usize>
    ensures { MatchResult result (λ n. Begins (numbers 8) bytes.now 8 n) (λ p. Stuck (numbers 8) bytes.now p) }
{
    Ok(u64::from_le_bytes(*front(bytes)?))
}
