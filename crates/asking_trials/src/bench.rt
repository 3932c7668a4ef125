// A desk with a request to be made and put to it.
use asking_desk::memory::{Desk, make_desk};
use asking_serving::answers::answer_one;
use serving::fault::Fault;
use std::alloc::Global;
use std::time::Instant;

// So many numbers are lent.
pub const LENT: usize = 60000000;

#[derive(Drop)]
pub struct Bench {
    heap: Global,
    desk: Desk,
    memory: Vec<u64>,
    line: Vec<u8>,
    pub request: Vec<u8>,
}

// Whether two seconds have passed.
fn is_late(rt: &HostRuntime, start: Instant) -> bool {
    start.elapsed(rt).map_or(true, |taken| taken.as_secs() >= 2)
}

impl Bench {
    pub fn new(heap: Global) -> Result<Bench, Fault> {
        let desk = make_desk(heap)?;
        let mut memory = Vec::new(heap);
        memory.resize(LENT, 0)?;
        Ok(Bench {
            heap,
            desk,
            memory,
            line: Vec::new(heap),
            request: Vec::new(heap),
        })
    }

    // Puts the request to the desk, with so many numbers lent, and prints what it is and its line. The next request begins with no bytes.
    pub fn put(&mut self, rt: &HostRuntime, what: &str, numbers: usize) -> Result<(), Fault> {
        let start = Instant::now(rt).map_err(|_e| Fault::Memory)?;
        answer_one(
            self.heap,
            &mut self.desk,
            self.request.as_slice(),
            numbers,
            &mut self.memory,
            true,
            &mut self.line,
        )?;
        let late = if is_late(rt, start) { " (late)" } else { "" };
        print!(rt; "{what}{late}: ").map_err(Fault::CannotWrite)?;
        rt.write_all(self.line.as_slice())
            .map_err(Fault::CannotWrite)?;
        self.line.clear();
        self.request.clear();
        Ok(())
    }
}
