// Names in their order, and whether the types in front of bytes are sound: each record's names in order, each once.
ghost use Rattle.std.specs.Prelude.{◌≡◌};
ghost use Rattle.query.specs.Data.{less_text};
ghost use Rattle.query.specs.Types.{sound};
ghost use Rattle.query.specs.Size.{size_t, all_sound};
ghost use Rattle.format.specs.Coding.{many};
ghost use Rattle.format.specs.Wire.{types as all_types};
ghost use Rattle.parts.specs.Counts.{total};
ghost use Rattle.parts.specs.Orders.{RiseInFront, NamesTold, HeadTold, ToldInFront, SchemaTold};

use crate::measured::{Front, Measured, measure};
use crate::types::own_parts;
use format::name::read_name;
use format::node::TypeNode;
use format::number::read_u32;
use format::types::type_node;

// Whether a name comes before another: by the first byte at which they differ, or as its beginning.
pub fn name_before(a: &[u8], b: &[u8]) -> bool
    ensures { result ≡ less_text a.now b.now }
{
    a < b
}

// How many bytes the name in front has with its length, if it comes before the name after it.
fn first_rises(bytes: &[u8]) -> Option<usize>
    ensures { RiseInFront bytes.now result }
{
    let m = read_name(bytes).ok()?;
    let n = read_name(&bytes[4 + m..]).ok()?;
    if !name_before(&bytes[4..4 + m], &bytes[8 + m..8 + m + n]) {
        return None;
    }
    Some(4 + m)
}

// Whether of the names that stand after their count each comes before the next.
fn names_rise(bytes: &[u8]) -> bool
    ensures { NamesTold bytes.now result }
{
    let Ok(count) = read_u32(bytes) else {
        return false;
    };
    let mut at: usize = 4;
    // where the next name begins is known only from the last
    for _i in 1..count {
        let Some(length) = first_rises(&bytes[at..]) else {
            return false;
        };
        at += length;
    }
    true
}

// Whether the names in the head of a type are in order, if it has any. The bytes are those after the tag.
fn head_rises(bytes: &[u8], node: TypeNode) -> bool
    ensures { HeadTold bytes.now node result }
{
    match node {
        TypeNode::Record(_) => names_rise(bytes),
        _ => true,
    }
}

// Types, of which it is asked whether they are sound.
pub struct SoundTypes;

impl Measured for SoundTypes {
    ghost coding = { all_types };

    ghost size = { size_t };

    ghost holds = { sound };

    fn front(bytes: &[u8], limit: usize) -> Option<Front> {
        if limit == 0 {
            return None;
        }
        let o = type_node(bytes).ok()?;
        if !head_rises(&bytes[1..], o.head) {
            return None;
        }
        let own = own_parts(&bytes[1..], o.head, limit - 1)?;
        Some(Front {
            own: 1 + own,
            after: o.parts,
            length: o.length,
        })
    }
}

// How many bytes the type in front has, if it is sound; nothing if it is not.
// It is told of types that have no more parts than the limit.
pub fn sound_type(bytes: &[u8], limit: usize) -> Option<usize>
    ensures { ToldInFront all_types size_t sound limit bytes.now result }
{
    sound_types(bytes, 1, limit)
}

// How many bytes the `count` types in front have, if all are sound; nothing if not all are.
fn sound_types(bytes: &[u8], count: usize, limit: usize) -> Option<usize>
    ensures { ToldInFront (many all_types count) (total size_t) all_sound limit bytes.now result }
{
    let found = measure::<SoundTypes>(bytes, count, limit)?;
    Some(found.length)
}

// Whether the schema of `count` types in front is sound, if it has no more parts than the limit.
pub fn sound_schema(bytes: &[u8], count: usize, limit: usize) -> bool
    ensures { SchemaTold count limit bytes.now result }
{
    sound_types(bytes, count, limit).is_some()
}
