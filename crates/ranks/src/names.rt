// Names by the places where they stand in a request's bytes.
ghost use Rattle.std.specs.Prelude.{◌≡◌, ℕ, ◌+◌, ◌<◌, ◌≤◌, List, length, take, drop, vec_len, vec_capacity, MatchResult, slice_index_or};
ghost use Rattle.query.specs.Data.{Name};
ghost use Rattle.ranks.specs.Ranks.{name_at, names_at, names_of, nowhere, Ordered, Listed, PutAt, Put, RankOf};

// How many names there is room for.
pub const MOST: usize = 8200;

// Where a name begins, and how many bytes it has.
#[derive(Clone, Copy, Drop)]
pub struct Place {
    pub start: usize,
    pub length: usize,
}

impl Place {
    // The bytes at the place, as far as there are any.
    fn of<'a>(&self, bytes: &'a [u8]) -> &'a [u8]
        ensures { result.now ≡ name_at bytes.now self.now }
    {
        let rest = &bytes[self.start.min(bytes.len())..];
        &rest[..self.length.min(rest.len())]
    }
}

// Memory keeps them from one request to the next, and no request's bytes: so what holds of both, `Listed`, is asked of them together.
#[derive(Drop)]
pub struct Names {
    pub places: Vec<Place>,
}

// Where a name stands among the others, or where it would.
fn look_up(bytes: &[u8], places: &[Place], name: &[u8]) -> Result<usize, usize>
    requires ordered { Ordered (names_at bytes.now places.now) }
    ensures { MatchResult result (λ i. (i < length places.now) × (name_at bytes.now (slice_index_or places.now i nowhere) ≡ name.now)) (λ i. PutAt (names_at bytes.now places.now) name.now i) }
{
    places.binary_search_by(|p| p.of(bytes).cmp(&name))
}

// The rank of a name.
pub fn rank(bytes: &[u8], names: &Names, name: &[u8]) -> Option<u32>
    requires { Listed bytes.now names.now }
    ensures { RankOf (names_of bytes.now names.now) name.now result }
{
    let i = look_up(bytes, &names.places, name).ok()?;
    Some(i as u32)
}

// Puts a name among the others, if it is not there yet and there is room.
pub fn put(bytes: &[u8], names: &mut Names, start: usize, long: usize)
    requires listed { Listed bytes.now names.old }
    requires lies { start + long ≤ length bytes.now }
    ensures { Put bytes.now names.old names.new (take long (drop start bytes.now)) }
{
    let end = start + long;
    let Err(i) = look_up(bytes, &names.places, &bytes[start..end]) else {
        return;
    };
    if names.places.len() >= MOST {
        return;
    }
    let _ = names.places.insert(
        i,
        Place {
            start,
            length: long,
        },
    );
}
