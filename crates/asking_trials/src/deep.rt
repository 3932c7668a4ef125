// Bytes that nest deep.
use crate::bench::{Bench, LENT};
use crate::write::{ask, ask_nothing, datum, eight, four, times};
use serving::fault::Fault;

const MILLIONS: usize = 10000000;

pub fn deep_queries(rt: &HostRuntime, b: &mut Bench) -> Result<(), Fault> {
    ask_nothing(&mut b.request)?;
    times(&mut b.request, &[12], MILLIONS)?;
    b.put(rt, "ten million nots, broken off", LENT)?;

    ask_nothing(&mut b.request)?;
    times(&mut b.request, &[12], MILLIONS)?;
    b.request.extend_from_slice(&[1])?;
    eight(&mut b.request, 100)?;
    b.put(rt, "ten million nots", LENT)?;

    ask_nothing(&mut b.request)?;
    times(&mut b.request, &[12], 4090)?;
    b.request.extend_from_slice(&[3, 2, 3])?;
    eight(&mut b.request, 5000)?;
    b.put(rt, "4,090 nots", LENT)?;

    // each of what the next comes to
    ask_nothing(&mut b.request)?;
    times(&mut b.request, &[30, 1], 4095)?;
    b.request.extend_from_slice(&[1])?;
    eight(&mut b.request, 0)?;
    b.put(rt, "4,095 thens, one in the second part of the other", LENT)?;

    ask_nothing(&mut b.request)?;
    times(&mut b.request, &[30], 4095)?;
    times(&mut b.request, &[1], 4096)?;
    eight(&mut b.request, 0)?;
    b.put(rt, "4,095 thens, one in the first part of the other", LENT)
}

// A bag of two data that nest 7,999 deep and differ in what lies deepest; and its type.
fn two_deep(out: &mut Vec<u8>) -> Result<(), Fault> {
    ask(out, 1)?;
    times(out, &[4], 8000)?;
    out.extend_from_slice(&[1])?;
    four(out, 1)?;
    out.extend_from_slice(&[5, 2, 0, 0, 0])?;
    times(out, &[5, 1, 0, 0, 0], 7999)?;
    datum(out, 1)?;
    times(out, &[5, 1, 0, 0, 0], 7999)?;
    datum(out, 2)?;
    Ok(())
}

pub fn deep_data(rt: &HostRuntime, b: &mut Bench) -> Result<(), Fault> {
    ask(&mut b.request, 1)?;
    b.request.extend_from_slice(&[1])?;
    four(&mut b.request, 1)?;
    times(&mut b.request, &[7], MILLIONS)?;
    b.request.extend_from_slice(&[0, 1])?;
    eight(&mut b.request, 0)?;
    b.put(rt, "a datum nested ten million deep", LENT)?;

    // all of it is written out
    two_deep(&mut b.request)?;
    b.request.extend_from_slice(&[0, 0, 0, 0, 0])?;
    eight(&mut b.request, 0)?;
    b.put(rt, "types and data 8,000 deep", LENT)?;

    // how many are left once those that are the same are one
    two_deep(&mut b.request)?;
    b.request.extend_from_slice(&[15, 17, 0, 0, 0, 0, 0])?;
    eight(&mut b.request, 100)?;
    b.put(rt, "types and data 8,000 deep, compared", LENT)
}
