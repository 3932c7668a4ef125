// What stands in front of a request in a file.
ghost use Rattle.std.specs.Prelude.{◌≤◌, length};
ghost use Rattle.serving.specs.Buffers.{HeaderOf};

use format::number::read_u32;

#[derive(Clone, Copy)]
pub struct Header {
    // how many bytes the request has
    pub count: usize,
    // how many numbers of eight bytes are lent with it
    pub numbers: usize,
}

// The header that stands in front of the bytes. The numbers are read by the format's own reader, which says them in the words of the format.
pub fn read_header(bytes: &[u8]) -> Header
    requires { 8 ≤ length bytes.now }
    ensures { HeaderOf bytes.now result }
{
    let count = read_u32(bytes).unwrap();
    let numbers = read_u32(&bytes[4..]).unwrap();
    Header { count, numbers }
}
