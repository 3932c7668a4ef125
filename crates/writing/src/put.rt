// Numbers, names and texts, written at the front of numbers that are lent.
ghost use Rattle.std.specs.Prelude.{◌≡◌, ◌+◌, ◌<◌, ◌≤◌, ◌∷◌, length, take, MatchOption};
ghost use Rattle.values.specs.Memory.{Spelled};
ghost use Rattle.writing.specs.Puts.{Put, Within, PutsName};

use values::value::Place;

// Bytes, one after the other. Each place is written by its number: of those that `iter_mut` hands to another iterator nothing is known afterwards.
fn put_bytes(out: &mut [u64], bytes: &[u8])
    requires { length bytes.now ≤ length out.old }
    ensures { take (length bytes.now) out.new ≡ bytes.now }
{
    for (i, byte) in bytes.iter().enumerate() {
        out[i] = u64::from(*byte);
    }
}

// A tag, and bytes after it.
pub fn put_tagged(out: &mut [u64], tag: u64, bytes: &[u8]) -> Option<usize>
    ensures { Put (tag ∷ bytes.now) out.old out.new result }
{
    if out.len() < 1 + bytes.len() {
        return None;
    }
    out[0] = tag;
    put_bytes(&mut out[1..], bytes);
    Some(1 + bytes.len())
}

// The bytes of a name or a text, if they are all there.
fn spelled(bytes: &[u8], p: Place) -> Option<&[u8]>
    ensures { MatchOption result (length bytes.now < p.start + p.count) (λ t. Spelled bytes.now t.now p.start p.count) }
{
    bytes.get(p.start..)?.get(..p.count)
}

// A name or a text that stands in the request's bytes: its length, and its bytes.
pub fn put_name(bytes: &[u8], place: Place, out: &mut [u64]) -> Option<usize>
    ensures within { Within out.old result }
    ensures means { PutsName bytes.now place out.old out.new result }
{
    let name = spelled(bytes, place)?;
    if out.len() < 4 + name.len() {
        return None;
    }
    put_bytes(out, &name.len().to_le_bytes()[..4]);
    put_bytes(&mut out[4..], name);
    Some(4 + name.len())
}
