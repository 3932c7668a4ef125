// The type of a request's query, in memory of the desk's own.
ghost use Rattle.std.specs.Prelude.{◌≡◌, ◌≤◌, [], ◌∷◌, length, drop, vec_capacity};
ghost use Rattle.ranks.specs.Ranks.{names_of};
ghost use Rattle.ranks.specs.Known.{Gathered};
ghost use Rattle.types.specs.Outcomes.{look, InOrder, Tidy};
ghost use Rattle.typing.specs.Loads.{Fit};
ghost use Rattle.typing.specs.Room.{Spacious};
ghost use Rattle.typed.specs.Told.{TypedAmong, QueryTyped};

use crate::scene::Lent;
use crate::walk::type_of;
use ranks::gather::request_names;
use std::mem::replace;
use types::entry::{Entry, Field};
use types::table::{Rows, Table};
use typing::load::load;
use typing::memory::Memory;

// The table begun anew in the memory of two vectors, with the type of nothing alone, which has number 0. No more is cleared than was made before.
fn begin(names: usize, mut entries: Vec<Entry>, mut fields: Vec<Field>) -> Table
    requires entries { 16400 ≤ vec_capacity entries }
    requires fields { 16793600 ≤ vec_capacity fields }
    ensures tidy { Tidy result }
    ensures names { result.names ≡ names }
    ensures entries { result.entries.items ≡ Entry.Unit ∷ [] }
    ensures fields { result.fields.items ≡ [] }
{
    entries.truncate(0);
    entries.push_reserved(Entry::Unit);
    fields.truncate(0);
    Table {
        names,
        entries,
        fields,
    }
}

// Copies numbers.
fn copy(numbers: &[u32], to: &mut Vec<u32>)
    requires few { length numbers.now ≤ 8200 }
    requires cap { 8200 ≤ vec_capacity to.old }
    ensures cap { 8200 ≤ vec_capacity to.new }
    ensures is { to.new.items ≡ numbers.now }
{
    to.clear();
    for x in numbers {
        to.push_reserved(*x);
    }
}

// The number of the query's type in a table begun anew, with the request's names gathered; none where it has no type.
fn type_in(
    bytes: &[u8],
    memory: &mut Memory,
    table: &mut Table,
    guide: &[u32],
    schema_at: usize,
    types: usize,
    query_at: usize,
) -> Option<u32>
    requires gathered { Gathered bytes.now memory.old.names schema_at types query_at }
    requires names { table.old.names ≡ length (names_of bytes.now memory.old.names) }
    requires entries { table.old.entries.items ≡ Entry.Unit ∷ [] }
    requires fields { table.old.fields.items ≡ [] }
    requires fit { Fit memory.old.work }
    requires schema { 8200 ≤ vec_capacity memory.old.schema }
    ensures names { memory.new.names ≡ memory.old.names }
    ensures fit { Fit memory.new.work }
    ensures schema { 8200 ≤ vec_capacity memory.new.schema }
    ensures told { TypedAmong bytes.now guide.now (names_of bytes.now memory.old.names) (look table.new) schema_at types query_at result }
{
    if schema_at > bytes.len() {
        return None;
    }
    load(
        bytes,
        &memory.names,
        table,
        &mut memory.work,
        schema_at,
        types,
    )?;
    copy(memory.work.stack.numbers(), &mut memory.schema);
    let lent = Lent {
        bytes,
        names: &memory.names,
        schema: memory.schema.as_slice(),
        guide,
        base: query_at,
    };
    type_of(&lent, table, &mut memory.work, 0, 0, 0, 4096)
}

// The number of the query's type in the memory's table; none where it has no type. A query within the limit of parts nests no deeper than 4096.
pub fn query_type(
    bytes: &[u8],
    memory: &mut Memory,
    guide: &[u32],
    schema_at: usize,
    types: usize,
    query_at: usize,
) -> Option<u32>
    requires roomy { Spacious memory.old }
    ensures roomy { Spacious memory.new }
    ensures sound { InOrder memory.new.table }
    ensures told { QueryTyped bytes.now guide.now memory.new schema_at types query_at result }
{
    request_names(bytes, &mut memory.names, schema_at, types, query_at);
    // The table takes the vectors for this query alone.
    let heap = *memory.table.entries.allocator();
    let entries = replace(&mut memory.table.entries, Vec::new(heap));
    let fields = replace(&mut memory.table.fields, Vec::new(heap));
    let mut table = begin(memory.names.places.len(), entries, fields);
    let asked = type_in(bytes, memory, &mut table, guide, schema_at, types, query_at);
    memory.table = Rows {
        names: table.names,
        entries: table.entries,
        fields: table.fields,
    };
    asked
}
