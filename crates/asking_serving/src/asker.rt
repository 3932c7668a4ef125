// The desk that asks, as it is served.
ghost use Rattle.asking_serving.specs.Shown.{Served};

use crate::answers::{answer_one, tell};
use asking_desk::memory::{Desk, make_desk};
use serving::teller::Teller;
use std::alloc::{AllocError, Global};

#[derive(Drop)]
pub struct Asking {
    desk: Desk,
}

impl Teller for Asking {
    ghost tells = { λ xs numbers work out out'. Served xs numbers work out out' };

    fn make(heap: Global) -> Result<Asking, AllocError> {
        let desk = make_desk(heap)?;
        Ok(Asking { desk })
    }

    fn tell(
        &mut self,
        heap: Global,
        bytes: &[u8],
        lent: &mut [u64],
        work: bool,
        out: &mut Vec<u8>,
    ) -> Result<(), AllocError> {
        tell(heap, &mut self.desk, bytes, lent, work, out)
    }

    fn answer_one(
        &mut self,
        heap: Global,
        bytes: &[u8],
        numbers: usize,
        memory: &mut Vec<u64>,
        work: bool,
        out: &mut Vec<u8>,
    ) -> Result<(), AllocError> {
        answer_one(heap, &mut self.desk, bytes, numbers, memory, work, out)
    }
}
