// Names and texts: a length in four bytes, and as many bytes.
ghost use Rattle.std.specs.Prelude.{◌≡◌, ◌+◌, length, MatchResult};
ghost use Rattle.format.specs.Coding.{name};
ghost use Rattle.format.specs.Reading.{ReadAs, Stuck};

use crate::number::read_u32;

// How many bytes the name in front has after its length, or where the bytes end too soon.
#[tactic(auto, using(crate::proofs::Names::name_read, crate::proofs::Names::name_cut, crate::proofs::Names::name_short, crate::specs::Lists::bytes_typed))]
pub fn read_name(bytes: &[u8]) -> Result<usize, usize>
    ensures { MatchResult result (λ n. ReadAs name bytes.now (4 + n) (λ t. length t ≡ n)) (λ p. Stuck name bytes.now p) }
{
    let n = read_u32(bytes)?;
    if bytes.len() - 4 < n {
        return Err(bytes.len());
    }
    Ok(n)
}
