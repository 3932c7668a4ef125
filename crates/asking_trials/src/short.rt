// Counts and lengths with nothing after them, and requests with no memory lent.
use crate::bench::{Bench, LENT};
use crate::write::{ask, ask_nothing, eight, four, times};
use serving::fault::Fault;

// A request that begins so, and then the largest number of four bytes and nothing more.
fn ends_at_count(rt: &HostRuntime, b: &mut Bench, front: &[u8], what: &str) -> Result<(), Fault> {
    b.request.extend_from_slice(front)?;
    four(&mut b.request, 4294967295)?;
    b.put(rt, what, LENT)
}

pub fn broken_off(rt: &HostRuntime, b: &mut Bench) -> Result<(), Fault> {
    ends_at_count(rt, b, &[0], "2^32 - 1 types, of which none comes")?;
    ends_at_count(rt, b, &[0, 1, 0, 0, 0, 5], "2^32 - 1 names in a type")?;
    ends_at_count(rt, b, &[0, 0, 0, 0, 0], "2^32 - 1 tables")?;
    ends_at_count(
        rt,
        b,
        &[0, 0, 0, 0, 0, 1, 0, 0, 0, 4],
        "a text of 2^32 - 1 bytes",
    )?;
    ends_at_count(
        rt,
        b,
        &[0, 0, 0, 0, 0, 1, 0, 0, 0, 5],
        "2^32 - 1 things in a bag",
    )?;
    ends_at_count(
        rt,
        b,
        &[0, 0, 0, 0, 0, 1, 0, 0, 0, 6],
        "2^32 - 1 names in a record",
    )?;
    ends_at_count(
        rt,
        b,
        &[0, 0, 0, 0, 0, 0, 0, 0, 0, 18],
        "a name of 2^32 - 1 bytes in a query",
    )
}

pub fn nothing_lent(rt: &HostRuntime, b: &mut Bench) -> Result<(), Fault> {
    b.request.extend_from_slice(&[2])?;
    b.put(rt, "nothing lent, no request", 0)?;

    ask_nothing(&mut b.request)?;
    times(&mut b.request, &[12], 5000)?;
    b.request.extend_from_slice(&[1])?;
    eight(&mut b.request, 1)?;
    b.put(rt, "nothing lent, too many parts", 0)?;

    ask(&mut b.request, 1)?;
    b.request
        .extend_from_slice(&[5, 2, 0, 0, 0, 1, 0, 0, 0, 98, 1, 0, 0, 0, 97, 1, 1])?;
    four(&mut b.request, 0)?;
    b.request.extend_from_slice(&[1])?;
    eight(&mut b.request, 1)?;
    b.put(rt, "nothing lent, names out of order", 0)?;

    ask_nothing(&mut b.request)?;
    b.request.extend_from_slice(&[12, 1])?;
    eight(&mut b.request, 1)?;
    b.put(rt, "nothing lent, no type", 0)?;

    ask(&mut b.request, 1)?;
    b.request.extend_from_slice(&[1])?;
    four(&mut b.request, 0)?;
    b.request.extend_from_slice(&[1])?;
    eight(&mut b.request, 1)?;
    b.put(rt, "nothing lent, too few tables", 0)?;

    b.request.extend_from_slice(&[1, 0, 0, 0, 0, 1])?;
    b.put(rt, "nothing lent, to plan", 0)?;

    ask_nothing(&mut b.request)?;
    b.request.extend_from_slice(&[1])?;
    eight(&mut b.request, 1)?;
    b.put(rt, "nothing lent, nothing wrong", 0)
}
