// Requests are put to a desk, and the lines of its answers gathered.
ghost use Rattle.std.specs.Prelude.{◌≡◌, ◌-◌, ◌≤◌, [], ◌++◌, replicate, vec_len, OnOk};

use crate::fault::Fault;
use crate::requests::Requests;
use crate::teller::Teller;
use std::alloc::{AllocError, Global};

// So many bytes of lines are gathered before they are written.
const FULL: usize = 1048576;

// Makes the memory large enough for so many numbers. It is used again for each request, and never cleared.
pub fn make_large(memory: &mut Vec<u64>, numbers: usize) -> Result<(), AllocError>
    ensures large { OnOk result (numbers ≤ vec_len memory.new) }
    ensures kept { OnOk result (memory.new.items ≡ memory.old.items ++ replicate (numbers - vec_len memory.old) 0) }
{
    if memory.len() < numbers {
        memory.resize(numbers, 0)?;
    }
    Ok(())
}

// Answers a request, with so many numbers lent.
pub fn answer_one<D: Teller>(
    heap: Global,
    desk: &mut D,
    bytes: &[u8],
    numbers: usize,
    memory: &mut Vec<u64>,
    work: bool,
    out: &mut Vec<u8>,
) -> Result<(), AllocError>
    ensures { OnOk result (D.tells bytes.now numbers work out.old.items out.new.items) }
{
    desk.answer_one(heap, bytes, numbers, memory, work, out)
}

// Answers all requests of the file.
pub fn answer_all<D: Teller>(
    rt: &HostRuntime,
    heap: Global,
    requests: &mut Requests,
    work: bool,
    out: &mut Vec<u8>,
) -> Result<(), Fault> {
    let mut desk = D::make(heap)?;
    let mut memory = Vec::new(heap);
    // A file's end is not known beforehand, and each loop has one.
    for _ in 0..u64::MAX {
        if !requests.advance()? {
            break;
        }
        answer_one(
            heap,
            &mut desk,
            requests.bytes(),
            requests.numbers(),
            &mut memory,
            work,
            out,
        )?;
        if out.len() >= FULL {
            write_out(rt, out)?;
        }
    }
    Ok(())
}

// Writes the lines that were gathered.
pub fn write_out(rt: &HostRuntime, out: &mut Vec<u8>) -> Result<(), Fault>
    ensures { out.new.items ≡ [] }
{
    let written = rt.write_all(out.as_slice());
    out.clear();
    written.map_err(Fault::CannotWrite)
}
