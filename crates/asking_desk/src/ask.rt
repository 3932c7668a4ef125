// Requests are answered from their bytes, with lent memory.
ghost use Rattle.std.specs.Prelude.{length};
ghost use Rattle.query.specs.Promise.{thin};
ghost use Rattle.asking_desk.specs.Answered.{Answered};
ghost use Rattle.asking_desk.specs.Kept.{KeepsRows};

use crate::answer::Answer;
use crate::memory::Desk;
use asking::asked::ask_of;

// The answer to the request that the bytes are, for any bytes and any length of lent memory. This desk asks; it does not plan yet.
pub fn answer<'a>(desk: &mut Desk, bytes: &[u8], lent: &'a mut [u64]) -> Answer<'a>
    ensures answered { Answered thin bytes.now (length lent.old) result }
    ensures in_order { KeepsRows desk.old desk.new }
{
    match desk.checked(bytes) {
        Ok(ask) => Answer::from(ask_of(bytes, ask, &desk.guide, &mut desk.marks, lent)),
        Err((why, place)) => Answer::Refused(why, place),
    }
}
