// What the desk answers.
ghost use Rattle.std.specs.Prelude.{◌≡◌};
ghost use Rattle.asking_desk.specs.Answered.{answer_of};

use asking::outcome::Outcome;
use operators::came::Stop;
use refusals::Refusal;

pub enum Answer<'a> {
    // a refusal, and its place in the request's bytes
    Refused(Refusal, usize),
    // what the query comes to: the part of the lent memory in which it is written, a byte to a number, and how much was looked at
    Is(&'a [u64], u64),
    // more would have to be looked at than was allowed
    Tired,
    // less memory was lent than is enough
    NoRoom,
}

// A query with a type does not fail, so what stands for failing is never handed on.
impl<'a> From<Result<Outcome<'a>, Stop>> for Answer<'a> {
    ghost from_gives = { λ came r. r ≡ answer_of came };

    fn from(came: Result<Outcome<'a>, Stop>) -> Answer<'a> {
        match came {
            Ok(outcome) => Answer::Is(outcome.words, outcome.looked),
            Err(Stop::Tired) => Answer::Tired,
            Err(Stop::NoRoom | Stop::Wrong) => Answer::NoRoom,
        }
    }
}
