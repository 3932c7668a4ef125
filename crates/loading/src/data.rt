// Data, rows, bags and records are loaded by functions that call each other. Each datum has a type, and where it is loaded the depth falls as that of
// its type does: so data of a type nest no deeper than the type. Where bytes are no datum, or not of their type, what is answered says nothing.
ghost use Rattle.std.specs.Prelude.{◌≡◌, ◌<◌};
ghost use Rattle.values.specs.Memory.{Kept};
ghost use Rattle.values.specs.Lent.{all};
ghost use Rattle.loading.specs.declared.loaded.Part.TheVariants as parts;
ghost use Rattle.loading.specs.Loads.{laid, Placed, Inside, RowInside, Loads, LoadsPart, LoadsRow};

use crate::front::{name_length, type_length, types_before};
use crate::loaded::{Loaded, Part, Side, Slots, Spot, Typing};
use values::lent::Memory;
use values::value::{Field, Place, Value};

// Loads a datum into free memory. `OF_TYPE` is for data that are known to be of their types: it takes less time where bags nest. Other data it answers
// otherwise, and refuses most of these.
#[cycle(load)]
pub fn load<const OF_TYPE: bool>(spot: Spot, depth: usize, memory: &mut Memory) -> Option<Loaded>
    ensures frozen { memory.new.kept.now ≡ memory.old.kept.now }
    ensures same { memory.new.made.ghost_name ≡ memory.old.made.ghost_name }
    ensures kept { Kept memory.old.top (all memory.old) (all memory.new) }
    ensures inside { Inside spot.entry.bytes.now spot.entry.at spot.entry.ty memory.old.top (all memory.new) (laid memory.new.top result) }
    ensures means { Loads spot.entry.bytes.now spot.entry.at spot.entry.ty depth memory.old.top (all memory.new) (laid memory.new.top result) }
{
    if depth == 0 {
        return None;
    }
    if spot.ty == spot.bytes.len() {
        return None;
    }
    match spot.part()? {
        Part::Plain(value, length) => Some(Loaded {
            value,
            length,
            typed: 1,
        }),
        Part::Bag(count) => load_bag::<OF_TYPE>(spot, count, depth, memory),
        Part::Record => load_record::<OF_TYPE>(spot, depth, memory),
        Part::Either(side) => load_side::<OF_TYPE>(spot, side, depth, memory),
    }
}

// Loads so many data that stand one after the other: their slots are reserved in a row, and then filled one by one.
#[cycle(load)]
pub(crate) fn load_row<const OF_TYPE: bool>(
    spot: Spot,
    typing: Typing,
    count: usize,
    depth: usize,
    memory: &mut Memory,
) -> Option<Slots>
    ensures frozen { memory.new.kept.now ≡ memory.old.kept.now }
    ensures same { memory.new.made.ghost_name ≡ memory.old.made.ghost_name }
    ensures kept { Kept memory.old.top (all memory.old) (all memory.new) }
    ensures inside { RowInside spot.entry.bytes.now spot.entry.at spot.entry.ty count memory.old.top memory.new.top result }
    ensures means { LoadsRow typing spot.entry.bytes.now spot.entry.at spot.entry.ty count depth memory.old.top (all memory.new) memory.new.top result }
{
    let bytes = spot.bytes;
    let start = memory.reserve::<Value>(count)?;
    let mut at = spot.at;
    let mut ty = spot.ty;
    let mut typed = 0;
    for i in 0..count {
        let l = load::<OF_TYPE>(Spot { bytes, at, ty }, depth, memory)?;
        memory.put_nth(start, i, l.value);
        at += l.length;
        typed = l.typed;
        ty = match typing {
            Typing::Shared => ty,
            Typing::Own => ty + typed,
        };
    }
    Some(Slots {
        start,
        length: at - spot.at,
        typed,
    })
}

// Loads a bag of so many things. These tell how many bytes their type has, so it need be gone through only where there are none: else bags that nest
// each go through all types within their own. But things that are not of the type tell it wrong.
#[cycle(load)]
fn load_bag<const OF_TYPE: bool>(
    spot: Spot,
    count: usize,
    depth: usize,
    memory: &mut Memory,
) -> Option<Loaded>
    requires placed { Placed spot.bytes.now spot.at 5 spot.ty 1 }
    requires deep { 0 < depth }
    ensures frozen { memory.new.kept.now ≡ memory.old.kept.now }
    ensures same { memory.new.made.ghost_name ≡ memory.old.made.ghost_name }
    ensures kept { Kept memory.old.top (all memory.old) (all memory.new) }
    ensures inside { Inside spot.entry.bytes.now spot.entry.at spot.entry.ty memory.old.top (all memory.new) (laid memory.new.top result) }
    ensures means { LoadsPart (parts.Bag count) spot.entry.bytes.now spot.entry.at spot.entry.ty depth memory.old.top (all memory.new) (laid memory.new.top result) }
{
    let bytes = spot.bytes;
    let ty = spot.ty + 1;
    let things = Spot {
        bytes,
        at: spot.at + 5,
        ty,
    };
    let slots = load_row::<OF_TYPE>(things, Typing::Shared, count, depth - 1, memory)?;
    let typed = if OF_TYPE && count != 0 {
        slots.typed
    } else {
        type_length(bytes, ty)
    };
    Some(Loaded {
        value: Value::Bag(Place {
            start: slots.start,
            count,
        }),
        length: 5 + slots.length,
        typed: 1 + typed,
    })
}

// Loads a record: its fields are reserved in a row, and then filled one by one. The names are taken from the type: so equal names mostly have
// equal places. The record's own names are the same, byte for byte, and are passed over. The loop is not `load_row`'s:
// with a name to be read for each field, and a type of its own, one loop for both would be longer than the two.
#[cycle(load)]
fn load_record<const OF_TYPE: bool>(spot: Spot, depth: usize, memory: &mut Memory) -> Option<Loaded>
    requires placed { Placed spot.bytes.now spot.at 1 spot.ty 1 }
    requires deep { 0 < depth }
    ensures frozen { memory.new.kept.now ≡ memory.old.kept.now }
    ensures same { memory.new.made.ghost_name ≡ memory.old.made.ghost_name }
    ensures kept { Kept memory.old.top (all memory.old) (all memory.new) }
    ensures inside { Inside spot.entry.bytes.now spot.entry.at spot.entry.ty memory.old.top (all memory.new) (laid memory.new.top result) }
    ensures means { LoadsPart parts.Record spot.entry.bytes.now spot.entry.at spot.entry.ty depth memory.old.top (all memory.new) (laid memory.new.top result) }
{
    let bytes = spot.bytes;
    let head = spot.names()?;
    if bytes.len() - spot.at < head.length {
        return None;
    }
    let start = memory.reserve::<Field>(head.count)?;
    let mut name = spot.ty + 5;
    let mut at = spot.at + head.length;
    let mut ty = spot.ty + head.length;
    for i in 0..head.count {
        let count = name_length(bytes, name)?;
        let l = load::<OF_TYPE>(Spot { bytes, at, ty }, depth - 1, memory)?;
        let field = Field {
            name: Place {
                start: name + 4,
                count,
            },
            value: l.value,
        };
        memory.put_nth(start, i, field);
        name += 4 + count;
        at += l.length;
        ty += l.typed;
    }
    Some(Loaded {
        value: Value::Record(Place {
            start,
            count: head.count,
        }),
        length: at - spot.at,
        typed: ty - spot.ty,
    })
}

// Loads a side of an either, and then its value into a slot of its own.
#[cycle(load)]
fn load_side<const OF_TYPE: bool>(
    spot: Spot,
    side: Side,
    depth: usize,
    memory: &mut Memory,
) -> Option<Loaded>
    requires placed { Placed spot.bytes.now spot.at 1 spot.ty 1 }
    requires deep { 0 < depth }
    ensures frozen { memory.new.kept.now ≡ memory.old.kept.now }
    ensures same { memory.new.made.ghost_name ≡ memory.old.made.ghost_name }
    ensures kept { Kept memory.old.top (all memory.old) (all memory.new) }
    ensures inside { Inside spot.entry.bytes.now spot.entry.at spot.entry.ty memory.old.top (all memory.new) (laid memory.new.top result) }
    ensures means { LoadsPart (parts.Either side) spot.entry.bytes.now spot.entry.at spot.entry.ty depth memory.old.top (all memory.new) (laid memory.new.top result) }
{
    let bytes = spot.bytes;
    let ty = spot.ty + 1;
    let before = types_before(bytes, ty, side);
    let own = Spot {
        bytes,
        at: spot.at + 1,
        ty: ty + before,
    };
    let l = load::<OF_TYPE>(own, depth - 1, memory)?;
    let slot = memory.put_next(l.value)?;
    match side {
        Side::Left => Some(Loaded {
            value: Value::Left(slot),
            length: 1 + l.length,
            typed: 1 + l.typed + type_length(bytes, ty + l.typed),
        }),
        Side::Right => Some(Loaded {
            value: Value::Right(slot),
            length: 1 + l.length,
            typed: 1 + before + l.typed,
        }),
    }
}

// Loads a datum into free memory, whatever it is.
pub fn load_data(spot: Spot, depth: usize, memory: &mut Memory) -> Option<Loaded>
    ensures frozen { memory.new.kept.now ≡ memory.old.kept.now }
    ensures same { memory.new.made.ghost_name ≡ memory.old.made.ghost_name }
    ensures kept { Kept memory.old.top (all memory.old) (all memory.new) }
    ensures inside { Inside spot.entry.bytes.now spot.entry.at spot.entry.ty memory.old.top (all memory.new) (laid memory.new.top result) }
    ensures means { Loads spot.entry.bytes.now spot.entry.at spot.entry.ty depth memory.old.top (all memory.new) (laid memory.new.top result) }
{
    load::<false>(spot, depth, memory)
}
