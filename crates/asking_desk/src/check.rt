// The checks of a request, in the order in which they refuse it.
ghost use Rattle.asking_desk.specs.Checked.{TypeTold, Checked};
ghost use Rattle.asking_desk.specs.Kept.{KeepsRows};

use crate::memory::Desk;
use asking::asked::TYPES_AT;
use checks::{LIMIT, in_order, of_schema, within_limit};
use format::node::{Ask, Request};
use format::requests::read_request;
use guide::mark;
use refusals::Refusal;
use typed::whole::query_type;

impl Desk {
    // The number of the query's type in the memory's table, with the guide to the query written; none where it has no type.
    fn typed(&mut self, bytes: &[u8], ask: Ask) -> Option<u32>
        ensures told { TypeTold bytes.now self.new.guide.items ask result }
        ensures in_order { KeepsRows self.old self.new }
    {
        let query = bytes.get(ask.query_at..)?;
        let _length = mark(query, &mut self.guide, 0, LIMIT)?;
        query_type(
            bytes,
            &mut self.memory,
            &self.guide,
            TYPES_AT,
            ask.types,
            ask.query_at,
        )
    }

    // The request to ask that the bytes are, once it has passed every check; or the refusal by the first that it does not pass, with a place in the bytes.
    // Each check hands on its value or returns its refusal by `let .. else`: that form is the project's rule for these checks.
    pub fn checked(&mut self, bytes: &[u8]) -> Result<Ask, (Refusal, usize)>
        ensures checked { Checked bytes.now self.new.guide.items result }
        ensures in_order { KeepsRows self.old self.new }
    {
        let read = read_request(bytes);
        let Ok(request) = read else {
            return Err((Refusal::NoRequest, read.err().unwrap_or(0)));
        };
        let Request::ToAsk(ask) = request else {
            return Err((Refusal::CannotDo, 0));
        };
        let Some(_parts) = within_limit(bytes, TYPES_AT, ask.types, ask.query_at) else {
            return Err((Refusal::TooManyParts, 0));
        };
        let true = in_order(bytes, TYPES_AT, ask.types) else {
            return Err((Refusal::NotInOrder, 0));
        };
        let Some(_type) = self.typed(bytes, ask) else {
            return Err((Refusal::NoType, 0));
        };
        let true = of_schema(bytes, TYPES_AT, ask.types, ask.tables_at, ask.tables) else {
            return Err((Refusal::NotOfSchema, 0));
        };
        Ok(ask)
    }
}
