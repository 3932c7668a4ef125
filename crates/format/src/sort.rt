// One scan for every sort of thing: a loop with a count of what is still to come, with no memory and no recursion.
ghost use Rattle.std.specs.Prelude.{◌≡◌, ℕ, ◌+◌, List, length, IfOk, MatchResult};
ghost use Rattle.format.specs.Coding.{Coding, many, counted, Inhabited};
ghost use Rattle.format.specs.Reading.{Read, ReadAs, Stuck, Opened, Unopened, OneWay, Whole, Garbled};

use crate::number::read_u32;

// What stands in front of a thing: its head, how many parts follow, and how many bytes the head has.
#[derive(Clone, Copy)]
pub struct Opening<H> {
    pub head: H,
    pub parts: usize,
    pub length: usize,
}

// A sort of thing that is written as a head and then its parts, things of the same sort.
pub trait Sort {
    type Head: Drop;

    // how things of the sort are written
    ghost coding: { Coding };

    // what a head says of the bytes in front and of how many it has
    ghost told: { Self.Head → List ℕ → ℕ → Type 0 };

    fn head(bytes: &[u8]) -> Result<Opening<Self::Head>, usize>
        ensures opened { MatchResult result (λ o. Opened coding bytes.now o.parts o.length) (λ p. Unopened coding bytes.now p) }
        ensures says { IfOk result (λ o. told o.head bytes.now o.length) };

    ghost some: { Inhabited coding };

    ghost unique: { OneWay coding };
}

// A run of things: how many, and how many bytes they have with their count.
#[derive(Clone, Copy)]
pub struct Run {
    pub count: usize,
    pub length: usize,
}

// How many bytes the `count` things in front have, or where no such things can come of the bytes any more.
pub fn scan<S: Sort>(bytes: &[u8], count: usize) -> Result<usize, usize>
    ensures { MatchResult result (λ e. Read (many S.coding count) bytes.now e) (λ p. Stuck (many S.coding count) bytes.now p) }
{
    let mut end: usize = 0;
    let mut pending: u128 = count as u128;
    // Each head says how many more are to come, so there is no range to go over; a recursion would be as deep as the bytes nest.
    while pending > 0 {
        let o = S::head(&bytes[end..]).map_err(|p| end + p)?;
        pending = pending - 1 + o.parts as u128;
        end += o.length;
    }
    Ok(end)
}

// A count and as many things.
#[tactic(auto, using(crate::proofs::Names::counted_read, crate::proofs::Names::counted_cut, crate::proofs::Names::counted_short))]
pub fn scan_counted<S: Sort>(bytes: &[u8]) -> Result<Run, usize>
    ensures { MatchResult result (λ g. ReadAs (counted S.coding) bytes.now g.length (λ xs. length xs ≡ g.count)) (λ p. Stuck (counted S.coding) bytes.now p) }
{
    let count = read_u32(bytes)?;
    let e = scan::<S>(&bytes[4..], count).map_err(|p| 4 + p)?;
    Ok(Run {
        count,
        length: 4 + e,
    })
}

// The head of the one thing that all of the bytes are, or the place at which they cease to be one.
pub fn whole<S: Sort>(bytes: &[u8]) -> Result<S::Head, usize>
    ensures is { MatchResult result (λ h. Whole S.coding bytes.now) (λ p. Garbled S.coding bytes.now p) }
    ensures says { IfOk result (λ h. (e : ℕ) × S.told h bytes.now e) }
{
    let Opening {
        head,
        parts,
        length,
    } = S::head(bytes)?;
    let e = length + scan::<S>(&bytes[length..], parts).map_err(|p| length + p)?;
    if e < bytes.len() {
        return Err(e);
    }
    Ok(head)
}
