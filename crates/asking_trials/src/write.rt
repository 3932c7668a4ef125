// The bytes of requests, piece by piece.
use std::alloc::AllocError;

// A number of four bytes.
pub fn four(out: &mut Vec<u8>, n: u32) -> Result<(), AllocError> {
    out.extend_from_slice(&n.to_le_bytes())
}

// A number of eight bytes.
pub fn eight(out: &mut Vec<u8>, n: u64) -> Result<(), AllocError> {
    out.extend_from_slice(&n.to_le_bytes())
}

// The same bytes, so many times.
pub fn times(out: &mut Vec<u8>, bytes: &[u8], count: usize) -> Result<(), AllocError> {
    for _ in 0..count {
        out.extend_from_slice(bytes)?;
    }
    Ok(())
}

// A request to ask begins, of so many types.
pub fn ask(out: &mut Vec<u8>, types: u32) -> Result<(), AllocError> {
    out.extend_from_slice(&[0])?;
    four(out, types)
}

// A request to ask without schema and tables begins.
pub fn ask_nothing(out: &mut Vec<u8>) -> Result<(), AllocError> {
    ask(out, 0)?;
    four(out, 0)
}

// A number, written out in data.
pub fn datum(out: &mut Vec<u8>, n: u64) -> Result<(), AllocError> {
    out.extend_from_slice(&[1])?;
    eight(out, n)
}

// The lowest four bits of a number as a small hexadecimal digit.
fn digit(n: u32) -> u8 {
    b"0123456789abcdef"[(n & 15) as usize]
}

// A name of three bytes, the number in hexadecimal digits: such names are in order.
pub fn name(out: &mut Vec<u8>, n: u32) -> Result<(), AllocError> {
    four(out, 3)?;
    out.extend_from_slice(&[digit(n >> 8), digit(n >> 4), digit(n)])
}
