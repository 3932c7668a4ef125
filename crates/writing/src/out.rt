// Data, bags and records are written by functions that call each other. Each writes a number before it goes deeper, and hands on the rest of what
// is lent: so neither the steps nor the depth are more than the numbers lent, however vast the datum is that a value stands for.
ghost use Rattle.std.specs.Prelude.{◌≡◌, ℕ, List};
ghost use Rattle.values.specs.declared.value.Value.TheVariants as vs;
ghost use Rattle.values.specs.Lent.{words};
ghost use Rattle.writing.specs.Puts.{Within};
ghost use Rattle.writing.specs.Writes.{Writes, WritesAny, WritesNames, WritesSide};

use crate::put::{put_name, put_tagged};
use values::row::Row;
use values::value::{Field, Place, Value};

// Writes the datum that a value stands for, and says in how many numbers; nothing where there is no room for it.
#[cycle(write_bag_write_out_write_record_write_side)]
pub fn write_out(bytes: &[u8], row: &Row, value: Value, out: &mut [u64]) -> Option<usize>
    ensures within { Within out.old result }
    ensures means { Writes bytes.now (words row.now) value out.old out.new result }
    ensures any { WritesAny bytes.now (words row.now) value out.old out.new result }
{
    match value {
        Value::Nothing => put_tagged(out, 0, &[]),
        Value::Number(n) => put_tagged(out, 1, &n.to_le_bytes()),
        Value::Truth(false) => put_tagged(out, 2, &[]),
        Value::Truth(true) => put_tagged(out, 3, &[]),
        Value::Text(p) => write_text(bytes, p, out),
        Value::Bag(p) => write_bag(bytes, row, p, out),
        Value::Record(p) => write_record(bytes, row, p, out),
        Value::Left(at) => write_side(bytes, row, 7, at, out),
        Value::Right(at) => write_side(bytes, row, 8, at, out),
    }
}

// A text, which stays in the request's bytes.
fn write_text(bytes: &[u8], p: Place, out: &mut [u64]) -> Option<usize>
    ensures within { Within out.old result }
    ensures means { (m : List ℕ) → WritesAny bytes.now m (vs.Text p) out.old out.new result }
{
    let n = put_tagged(out, 4, &[])?;
    let e = put_name(bytes, p, &mut out[n..])?;
    Some(n + e)
}

// How many things a bag has, and then these, slot by slot. Once there is no room for one, none after it is looked at.
#[cycle(write_bag_write_out_write_record_write_side)]
fn write_bag(bytes: &[u8], row: &Row, p: Place, out: &mut [u64]) -> Option<usize>
    ensures within { Within out.old result }
    ensures means { WritesAny bytes.now (words row.now) (vs.Bag p) out.old out.new result }
{
    if !row.holds::<Value>(p) {
        return None;
    }
    let mut n = put_tagged(out, 5, &p.count.to_le_bytes()[..4])?;
    for i in 0..p.count {
        let v = row.nth(p.start, i);
        n += write_out(bytes, row, v, &mut out[n..])?;
    }
    Some(n)
}

// The names of a record's fields.
fn write_names(bytes: &[u8], row: &Row, p: Place, out: &mut [u64]) -> Option<usize>
    ensures within { Within out.old result }
    ensures means { WritesNames bytes.now (words row.now) p out.old out.new result }
{
    if !row.holds::<Field>(p) {
        return None;
    }
    let mut n = 0;
    for i in 0..p.count {
        let f = row.nth::<Field>(p.start, i);
        n += put_name(bytes, f.name, &mut out[n..])?;
    }
    Some(n)
}

// A record's names all come before its values.
#[cycle(write_bag_write_out_write_record_write_side)]
fn write_record(bytes: &[u8], row: &Row, p: Place, out: &mut [u64]) -> Option<usize>
    ensures within { Within out.old result }
    ensures means { WritesAny bytes.now (words row.now) (vs.Record p) out.old out.new result }
{
    if !row.holds::<Field>(p) {
        return None;
    }
    let mut n = put_tagged(out, 6, &p.count.to_le_bytes()[..4])?;
    let named = write_names(bytes, row, p, &mut out[n..])?;
    n += named;
    for i in 0..p.count {
        let f = row.nth::<Field>(p.start, i);
        n += write_out(bytes, row, f.value, &mut out[n..])?;
    }
    Some(n)
}

// The tag of a side, and then what its slot holds.
#[cycle(write_bag_write_out_write_record_write_side)]
fn write_side(bytes: &[u8], row: &Row, tag: u64, at: usize, out: &mut [u64]) -> Option<usize>
    ensures within { Within out.old result }
    ensures means { WritesSide bytes.now (words row.now) tag at out.old out.new result }
{
    let v = row.find(at)?;
    let n = put_tagged(out, tag, &[])?;
    let e = write_out(bytes, row, v, &mut out[n..])?;
    Some(n + e)
}
