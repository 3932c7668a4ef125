// One request's tables, there and back.
ghost use Rattle.std.specs.Prelude.{ℕ, ◌≤◌, length};
ghost use Rattle.loading.specs.Loads.{laid, Loads};

use checks::{LIMIT, of_schema, within_limit};
use format::node::{Ask, Request};
use format::requests::read_request;
use loading::data;
use loading::loaded::{Loaded, Spot};
use values::lent::Memory;
use values::row::Row;
use writing::out::write_out;

// Where the types of the schema stand in a request to ask: after its tag and their count.
const TYPES_AT: usize = 5;

// How many tables there were, and how many were written back as they stood.
#[derive(Clone, Copy, Default)]
pub struct Tally {
    pub tables: u64,
    pub same: u64,
}

// Whether numbers are bytes, one by one.
fn are_bytes(numbers: &[u64], bytes: &[u8]) -> bool {
    numbers.len() == bytes.len()
        && numbers
            .iter()
            .zip(bytes)
            .all(|(number, byte)| *number == u64::from(*byte))
}

// Loads the table at a place, of the type at another, into all of the memory.
fn load(bytes: &[u8], at: usize, ty: usize, mem: &mut [u64]) -> Option<Loaded>
    ensures means { at ≤ length bytes.now → ty ≤ length bytes.now → (top : ℕ) × Loads bytes.now at ty 8192 0 mem.new (laid top result) }
{
    if at > bytes.len() || ty > bytes.len() {
        return None;
    }
    let mut memory = Memory {
        kept: &[],
        made: mem,
        top: 0,
    };
    data::load::<true>(Spot { bytes, at, ty }, LIMIT, &mut memory)
}

// Whether what was loaded is written as the bytes from the place on.
fn is_written_back(bytes: &[u8], at: usize, loaded: Loaded, mem: &[u64], out: &mut [u64]) -> bool {
    let row = Row {
        kept: &[],
        made: mem,
    };
    let Some(count) = write_out(bytes, &row, loaded.value, out) else {
        return false;
    };
    let (Some(written), Some(stood)) = (out.get(..count), bytes.get(at..)) else {
        return false;
    };
    count == loaded.length
        && stood
            .get(..count)
            .is_some_and(|stood| are_bytes(written, stood))
}

fn tables_there_and_back(bytes: &[u8], ask: Ask, mem: &mut [u64], out: &mut [u64]) -> Tally {
    let mut same: u64 = 0;
    let mut at = ask.tables_at;
    let mut ty = TYPES_AT;
    for _i in 0..ask.tables {
        let Some(loaded) = load(bytes, at, ty, mem) else {
            break;
        };
        if is_written_back(bytes, at, loaded, mem, out) {
            same = same.wrapping_add(1);
        }
        at = at.wrapping_add(loaded.length);
        ty = ty.wrapping_add(loaded.typed);
    }
    Tally {
        tables: ask.tables as u64,
        same,
    }
}

// The tables of a request to ask, if they are of its schema.
pub fn there_and_back(bytes: &[u8], mem: &mut [u64], out: &mut [u64]) -> Tally {
    let Ok(Request::ToAsk(ask)) = read_request(bytes) else {
        return Tally::default();
    };
    if within_limit(bytes, TYPES_AT, ask.types, ask.query_at).is_none() {
        return Tally::default();
    }
    if !of_schema(bytes, TYPES_AT, ask.types, ask.tables_at, ask.tables) {
        return Tally::default();
    }
    tables_there_and_back(bytes, ask, mem, out)
}
