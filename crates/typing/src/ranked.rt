// The ranks of names that stand one after the other.
ghost use Rattle.std.specs.Prelude.{◌≡◌, ℕ, ◌+◌, ◌<◌, ◌≤◌, List, length, vec_len, vec_capacity};
ghost use Rattle.ranks.specs.Ranks.{Listed};
ghost use Rattle.typing.specs.Loads.{RanksRead};

use format::name::read_name;
use ranks::names::{MOST, Names, rank};

// The ranks of so many names, left in `ranks`; none where one is not known.
pub fn ranks_of(
    bytes: &[u8],
    names: &Names,
    ranks: &mut Vec<u32>,
    at: usize,
    count: usize,
) -> Option<()>
    requires listed { Listed bytes.now names.now }
    requires within { at ≤ length bytes.now }
    requires cap { 8200 ≤ vec_capacity ranks.old }
    ensures cap { 8200 ≤ vec_capacity ranks.new }
    ensures read { RanksRead bytes.now names.now ranks.new.items at count result }
{
    ranks.clear();
    let mut pos = at;
    for i in 0..count {
        let n = read_name(&bytes[pos..]).ok()?;
        let start = pos + 4;
        let end = start + n;
        let k = rank(bytes, names, &bytes[start..end])?;
        if ranks.len() >= MOST {
            return None;
        }
        ranks.push_reserved(k);
        pos = end;
    }
    Some(())
}
