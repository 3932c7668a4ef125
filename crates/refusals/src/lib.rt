// The refusals of a request, by the first check that it does not pass.
#![tactic(auto)]

ghost use Rattle.std.specs.Prelude.{◌≡◌};
ghost use Rattle.refusals.specs.Numbers.{number_of, IsNumbered};

#[derive(Clone, Copy, Debug, PartialEq, Eq)]
pub enum Refusal {
    // the bytes are no request
    NoRequest = 1,
    // schema and query have too many parts
    TooManyParts = 2,
    // a record's names in the schema are not in order
    NotInOrder = 3,
    // the query has no type
    NoType = 4,
    // the tables are not of the schema
    NotOfSchema = 5,
    // the desk cannot do such a request yet
    CannotDo = 6,
}

// The number by which a refusal is told.
impl From<Refusal> for u8 {
    ghost from_gives = { λ why n. n ≡ number_of why };

    fn from(why: Refusal) -> u8 {
        why as u8
    }
}

// The refusal that is told by a number; the number itself, where none is.
impl TryFrom<u8> for Refusal {
    type Error = u8;

    ghost try_from_gives = { λ n r. IsNumbered n r };

    fn try_from(number: u8) -> Result<Refusal, u8> {
        match number {
            1 => Ok(Refusal::NoRequest),
            2 => Ok(Refusal::TooManyParts),
            3 => Ok(Refusal::NotInOrder),
            4 => Ok(Refusal::NoType),
            5 => Ok(Refusal::NotOfSchema),
            6 => Ok(Refusal::CannotDo),
            _ => Err(number),
        }
    }
}
