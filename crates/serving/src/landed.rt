// The desk that has landed, as it is served.
ghost use Rattle.serving.specs.Landing.{Refused};

use crate::teller::Teller;
use desk::answer::Answer;
use desk::ask::answer;
use printing::line::refusal;
use std::alloc::{AllocError, Global};

#[derive(Clone, Copy)]
pub struct Landed;

impl Teller for Landed {
    ghost tells = { λ xs numbers _ out out'. Refused xs numbers out out' };

    fn make(_heap: Global) -> Result<Landed, AllocError> {
        Ok(Landed)
    }

    fn tell(
        &mut self,
        _heap: Global,
        bytes: &[u8],
        lent: &mut [u64],
        _work: bool,
        out: &mut Vec<u8>,
    ) -> Result<(), AllocError> {
        let Answer::Refused(why, place) = answer(bytes, lent);
        refusal(u8::from(why), place, out)
    }
}
