// A request to ask that has passed its checks is answered in lent memory.
ghost use Rattle.std.specs.Prelude.{◌≡◌, ℕ, ◌+◌, ◌≤◌, length, drop};
ghost use Rattle.values.specs.Lent.{all};
ghost use Rattle.values.specs.declared.value.Value.TheVariants as vs;
ghost use Rattle.literals.specs.Literals.{brought};
ghost use Rattle.eval.specs.Ready.{Ready};
ghost use Rattle.eval.specs.Set.{set};
ghost use Rattle.asking.specs.Outcomes.{WorksOut};
ghost use Rattle.asking.specs.Passed.{Passed, LoadsUp};
ghost use Rattle.asking.specs.Asked.{Tells};

use crate::outcome::Outcome;
use crate::written::written;
use eval::scene::{Lent, Scene};
use eval::work::work_out;
use format::node::Ask;
use literals::load::load_literals_of_type;
use loading::loaded::Spot;
use loading::tables::load_each;
use operators::came::Stop;
use values::lent::Memory;
use values::value::Value;

// Data nest no deeper than that: the schema's types nest no deeper than it has parts, and a query adds two for each of its own.
const DEEP: usize = 24576;

// Where the types of the schema stand in a request to ask: after its tag and their count.
pub const TYPES_AT: usize = 5;

// Works the query out in the memory, and writes what it comes to into the rest of it.
fn worked_out<'a>(
    lent: &Lent,
    query: &[u8],
    memory: Memory<'a>,
    budget: u64,
) -> Result<Outcome<'a>, Stop>
    requires { Ready (set lent.now) query.now 0 vs.Nothing vs.Nothing (all memory) memory.top }
    ensures { WorksOut (set lent.now) query.now (all memory.entry) memory.entry.top budget result }
{
    let mut memory = memory;
    let came = work_out(
        lent,
        query,
        0,
        Value::Nothing,
        Value::Nothing,
        &mut memory,
        budget,
    )?;
    written(lent.bytes, memory, came, budget)
}

// Loads the tables, and after them what the query writes out: returns where the slots of that begin.
fn load_all(
    bytes: &[u8],
    ask: Ask,
    query: &[u8],
    guide: &[u32],
    marks: &mut [u32],
    memory: &mut Memory,
) -> Option<usize>
    requires passed { Passed bytes.now guide.now ask }
    requires query { drop ask.query_at bytes.now ≡ query.now }
    requires marks { 73728 ≤ length marks.old }
    ensures frozen { memory.new.kept.now ≡ memory.old.kept.now }
    ensures same { memory.new.made.ghost_name ≡ memory.old.made.ghost_name }
    ensures long { length (all memory.new) ≡ length (all memory.old) }
    ensures means { memory.old.top ≡ 0 → LoadsUp bytes.now guide.now ask marks.new (all memory.new) (brought memory.new.top result) }
{
    let spot = Spot {
        bytes,
        at: ask.tables_at,
        ty: TYPES_AT,
    };
    load_each::<true>(spot, ask.tables, memory)?;
    load_literals_of_type(bytes, ask.query_at, query, guide, marks, memory)
}

// What is loaded lies in one part of the lent memory and is only read from then on; what is made is written into the other.
pub fn ask_of<'a>(
    bytes: &[u8],
    ask: Ask,
    guide: &[u32],
    marks: &mut [u32],
    lent: &'a mut [u64],
) -> Result<Outcome<'a>, Stop>
    requires passed { Passed bytes.now guide.now ask }
    requires marks { 73728 ≤ length marks.old }
    ensures { Tells bytes.now guide.now ask (length lent.old) result }
{
    let from = ask.query_at;
    let query = &bytes[from..];
    let mut memory = Memory {
        kept: &[],
        made: lent,
        top: 0,
    };
    let literals = load_all(bytes, ask, query, guide, marks, &mut memory).ok_or(Stop::NoRoom)?;
    let Memory { made, top, .. } = memory;
    let (kept, made) = made.split_at_mut(top);
    let scene = Scene {
        query_at: from,
        tables: 0,
        count: ask.tables,
        literals,
        deep: DEEP,
    };
    let lent = Lent {
        scene,
        bytes,
        guide,
        literals: marks,
    };
    worked_out(&lent, query, Memory { kept, made, top }, ask.work)
}
