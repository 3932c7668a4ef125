// Requests are answered from their bytes, with lent memory.
ghost use Rattle.std.specs.Prelude.{length};
ghost use Rattle.desk.specs.Answered.{Answered, nothing};

use crate::answer::Answer;
use format::requests::read_request;
use refusals::Refusal;

// The answer to the request that the bytes are. This desk can do no request yet: each is refused.
pub fn answer(bytes: &[u8], lent: &mut [u64]) -> Answer
    ensures { Answered nothing bytes.now (length lent.old) result }
{
    let _ = lent.len();
    match read_request(bytes) {
        Ok(_request) => Answer::Refused(Refusal::CannotDo, 0),
        Err(place) => Answer::Refused(Refusal::NoRequest, place),
    }
}
