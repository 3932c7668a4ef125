// Types and data that share their parts: as trees they would be vast.
use crate::bench::{Bench, LENT};
use crate::write::{ask, ask_nothing, datum, eight, four, name, times};
use serving::fault::Fault;

// What is looked at, in two fields of a record: so many times over, and at last of nothing. A query in front is asked of that.
fn doubled(out: &mut Vec<u8>, count: usize) -> Result<(), Fault> {
    times(
        out,
        &[30, 10, 19, 1, 0, 0, 0, 97, 1, 19, 1, 0, 0, 0, 98, 1],
        count,
    )?;
    out.extend_from_slice(&[1])?;
    eight(out, 10000)?;
    Ok(())
}

pub fn shared_parts(rt: &HostRuntime, b: &mut Bench) -> Result<(), Fault> {
    ask_nothing(&mut b.request)?;
    b.request.extend_from_slice(&[30, 3, 1])?;
    datum(&mut b.request, 5)?;
    doubled(&mut b.request, 800)?;
    b.put(rt, "types doubled 800 times", LENT)?;

    ask_nothing(&mut b.request)?;
    b.request.extend_from_slice(&[30, 4, 1, 1])?;
    doubled(&mut b.request, 800)?;
    b.put(rt, "types doubled 800 times, compared", LENT)?;

    ask_nothing(&mut b.request)?;
    b.request.extend_from_slice(&[30, 4, 1, 1])?;
    doubled(&mut b.request, 200)?;
    b.put(rt, "data doubled 200 times, compared with itself", LENT)?;

    ask_nothing(&mut b.request)?;
    doubled(&mut b.request, 60)?;
    b.put(rt, "an answer of 2^60 parts", LENT)
}

// Records {"name": 0} of so many things, one after the other, in a bag.
fn things(out: &mut Vec<u8>, byte: u8, count: u32) -> Result<(), Fault> {
    out.extend_from_slice(&[5])?;
    four(out, count)?;
    times(
        out,
        &[6, 1, 0, 0, 0, 1, 0, 0, 0, byte, 1, 0, 0, 0, 0, 0, 0, 0, 0],
        count as usize,
    )?;
    Ok(())
}

// A record's names, which come before all of its types or values.
fn thousand_names(out: &mut Vec<u8>) -> Result<(), Fault> {
    four(out, 1000)?;
    for n in 0..1000 {
        name(out, n)?;
    }
    Ok(())
}

pub fn vast(rt: &HostRuntime, b: &mut Bench) -> Result<(), Fault> {
    ask(&mut b.request, 1)?;
    b.request.extend_from_slice(&[5])?;
    thousand_names(&mut b.request)?;
    times(&mut b.request, &[1], 1000)?;
    four(&mut b.request, 1)?;
    b.request.extend_from_slice(&[6])?;
    thousand_names(&mut b.request)?;
    times(&mut b.request, &[1, 7, 0, 0, 0, 0, 0, 0, 0], 1000)?;
    b.request.extend_from_slice(&[18])?;
    name(&mut b.request, 999)?;
    times(&mut b.request, &[10, 0, 0, 0, 0, 0], 250)?;
    b.request.extend_from_slice(&[0, 0, 0, 0, 0])?;
    eight(&mut b.request, 1000)?;
    b.put(rt, "records of 1,000 fields joined 250 times", LENT)?;

    ask(&mut b.request, 2)?;
    b.request.extend_from_slice(&[
        4, 5, 1, 0, 0, 0, 1, 0, 0, 0, 97, 1, 4, 5, 1, 0, 0, 0, 1, 0, 0, 0, 98, 1,
    ])?;
    four(&mut b.request, 2)?;
    things(&mut b.request, 97, 5000)?;
    things(&mut b.request, 98, 5000)?;
    b.request
        .extend_from_slice(&[24, 0, 0, 0, 0, 0, 0, 1, 0, 0, 0])?;
    eight(&mut b.request, 100)?;
    b.put(rt, "a product of 5,000 by 5,000 with work 100", LENT)
}
