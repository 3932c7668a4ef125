// The requests of a file, one after another.
ghost use Rattle.std.specs.Prelude.{◌≡◌, ◌+◌, ◌≤◌, true, take, IfOk, vec_len};
ghost use Rattle.std.specs.List.{between};
ghost use Rattle.serving.specs.Buffers.{Longer, WentOn};

use crate::fault::Fault;
use crate::header::{Header, read_header};
use std::alloc::Global;
use std::fs::File;
use std::io::{ErrorKind, Read};
use std::{fs, io};

// How many bytes are read at a time, as long as no request is larger.
const ROOM: usize = 1048576;

// buffer[from..to] is the request now looked at, and buffer[to..end] is read and not yet looked at: as two ranges the place between them would stand twice.
#[derive(Drop)]
pub struct Requests {
    file: File,
    buffer: Vec<u8>,
    from: usize,
    to: usize,
    end: usize,
    // what stood in front of the request
    header: Header,
    // how many bytes of the file have been read
    total: u64,
    ghost whole: { from ≤ to },
    ghost ordered: { to ≤ end },
    ghost within: { end ≤ vec_len buffer },
}

impl Requests {
    // Opens the file of that name. Nothing of it is read yet.
    pub fn open(rt: &HostRuntime, heap: Global, name: &str) -> Result<Requests, Fault>
        ensures { IfOk result (λ s. (s.to ≡ 0) × (s.end ≡ 0)) }
    {
        let mut buffer = Vec::new(heap);
        buffer.resize(ROOM, 0)?;
        let file = fs::open(rt, name).map_err(Fault::CannotOpen)?;
        Ok(Requests {
            file,
            buffer,
            from: 0,
            to: 0,
            end: 0,
            header: Header {
                count: 0,
                numbers: 0,
            },
            total: 0,
        })
    }

    // The bytes of the request.
    pub fn bytes(&self) -> &[u8]
        ensures { result.now ≡ between self.now.from self.now.to self.now.buffer.items }
    {
        let (from, to) = (self.from, self.to);
        &self.buffer.as_slice()[from..to]
    }

    // How many numbers of eight bytes are lent with it.
    pub fn numbers(&self) -> usize
        ensures { result ≡ self.now.header.numbers }
    {
        self.header.numbers
    }

    // Goes on to the next request, and answers whether there is one.
    pub fn advance(&mut self) -> Result<bool, Fault>
        ensures { IfOk result (λ b. WentOn (between self.old.to self.old.end self.old.buffer.items) self.new.buffer.items self.new.from self.new.to self.new.end self.new.header b) }
    {
        self.from = self.to;
        if !self.hold(8)? {
            if self.from == self.end {
                return Ok(false);
            }
            return Err(Fault::BreaksOff(self.total));
        }
        let (start, end) = (self.from, self.end);
        let header = read_header(&self.buffer.as_slice()[start..end]);
        // The header stays in front of the request.
        if !self.hold(8 + header.count)? {
            return Err(Fault::BreaksOff(self.total));
        }
        let request = self.from + 8;
        self.to = request + header.count;
        self.from = request;
        self.header = header;
        Ok(true)
    }

    // Reads on until so many bytes from `from` on are there, and answers whether they are; if not, the file has ended.
    fn hold(&mut self, count: usize) -> Result<bool, Fault>
        requires { self.old.from ≡ self.old.to }
        ensures same { self.new.from ≡ self.new.to }
        ensures more { Longer (between self.old.to self.old.end self.old.buffer.items) (between self.new.to self.new.end self.new.buffer.items) }
        ensures there { IfOk result (λ b. b ≡ true → self.new.from + count ≤ self.new.end) }
    {
        for _ in 0..u64::MAX {
            if self.end - self.from >= count {
                return Ok(true);
            }
            self.make_room()?;
            if !self.read_on()? {
                return Ok(false);
            }
        }
        Ok(false)
    }

    // Where the buffer is full, moves what is still wanted to its front, or makes it twice as large.
    fn make_room(&mut self) -> Result<(), Fault>
        requires { self.old.from ≡ self.old.to }
        ensures same { self.new.from ≡ self.new.to }
        ensures kept { between self.new.to self.new.end self.new.buffer.items ≡ between self.old.to self.old.end self.old.buffer.items }
    {
        let size = self.buffer.len();
        if self.end < size {
            return Ok(());
        }
        if self.from == 0 {
            self.buffer.resize(size.saturating_add(size), 0)?;
            return Ok(());
        }
        let (from, end) = (self.from, self.end);
        self.buffer.copy_within(from..end, 0);
        self.from = 0;
        self.to = 0;
        self.end = end - from;
        Ok(())
    }

    // Reads what there is into the rest of the buffer, and answers whether the file may have more.
    fn read_on(&mut self) -> Result<bool, Fault>
        ensures same { (self.new.from ≡ self.old.from) × (self.new.to ≡ self.old.to) }
        ensures more { Longer (between self.old.to self.old.end self.old.buffer.items) (between self.new.to self.new.end self.new.buffer.items) }
    {
        let end = self.end;
        match read_behind(&mut self.file, &mut self.buffer, end) {
            Ok(count) => {
                self.end = end + count;
                self.total = self.total.saturating_add(count as u64);
                Ok(count > 0)
            }
            Err(e) if e.kind() == ErrorKind::Interrupted => Ok(true),
            Err(e) => Err(Fault::CannotRead(e)),
        }
    }
}

// Reads what there is into the buffer behind its first `end` bytes, and answers how many bytes came.
fn read_behind(file: &mut File, buffer: &mut Vec<u8>, end: usize) -> io::Result<usize>
    requires { end ≤ vec_len buffer.old }
    ensures front { take end buffer.new.items ≡ take end buffer.old.items }
    ensures long { vec_len buffer.new ≡ vec_len buffer.old }
    ensures within { IfOk result (λ n. end + n ≤ vec_len buffer.old) }
{
    file.read(&mut buffer.as_mut_slice()[end..])
}
