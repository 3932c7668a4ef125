// What a query comes to.
ghost use Rattle.std.specs.Prelude.{◌≡◌};
ghost use Rattle.values.specs.Memory.{Kept};
ghost use Rattle.values.specs.Lent.{all};
ghost use Rattle.operators.specs.Came.{came_to};
ghost use Rattle.eval.specs.Ready.{Ready, Answers, EachReady, EachAnswers, KeepAnswers, LeafReady, LeafHolds};
ghost use Rattle.eval.specs.Set.{set};

use crate::scene::Lent;
use crate::shape::{Leaf, Over, Shape, is_empty, place_of, shape_of, side_of};
use binary::pair_of;
use guide::node;
use operators::came::{Came, Stop};
use operators::kinds::truth;
use operators::op::price;
use unary::single_of;
use values::lent::Memory;
use values::value::{Place, Value};

// What is at hand: a table, what is looked at, what goes along, or what the query writes out, which was loaded before.
fn leaf_of(
    lent: &Lent,
    query: &[u8],
    at: usize,
    leaf: Leaf,
    env: Value,
    it: Value,
    memory: &Memory,
) -> Value
    requires { LeafReady (set lent.now) query.now at leaf env it (all memory.now) memory.now.top }
    ensures { LeafHolds (set lent.now) query.now at leaf env it (all memory.now) memory.now.top result }
{
    match leaf {
        Leaf::Table(n) => memory.nth(lent.scene.tables, n),
        Leaf::It => it,
        Leaf::Env => env,
        Leaf::Just => memory.nth(lent.scene.literals, lent.literals[at] as usize),
    }
}

// The query's parts are worked out from left to right, but where the first is asked of what the second comes to, the second comes first.
// Of the request's bytes, `query` is the part that begins with the query, whose place is `at`, counted from the beginning of the whole query.
#[cycle(work_out)]
pub fn work_out(
    lent: &Lent,
    query: &[u8],
    at: usize,
    env: Value,
    it: Value,
    memory: &mut Memory,
    left: u64,
) -> Result<Came, Stop>
    requires { Ready (set lent.now) query.now at env it (all memory.old) memory.old.top }
    ensures frozen { memory.new.kept.now ≡ memory.old.kept.now }
    ensures same { memory.new.made.ghost_name ≡ memory.old.made.ghost_name }
    ensures kept { Kept memory.old.top (all memory.old) (all memory.new) }
    ensures means { Answers (set lent.now) query.now at env it (all memory.old) memory.old.top left (all memory.new) (came_to memory.new.top result) }
{
    let last = lent.guide[at] as usize;
    let Some(visit) = node(query, last) else {
        return Err(Stop::Wrong);
    };
    let first = visit.first;
    match shape_of(visit.node) {
        Shape::Leaf(leaf) => Ok(Came {
            value: leaf_of(lent, query, at, leaf, env, it, memory),
            left,
        }),
        Shape::Single(op) => {
            if left == 0 {
                return Err(Stop::Tired);
            }
            let only = work_out(lent, &query[last..], at + last, env, it, memory, left - 1)?;
            single_of(
                op,
                lent.scene.query_at + at,
                lent.scene.deep,
                lent.bytes,
                only.value,
                memory,
                only.left,
            )
        }
        Shape::Pair(op) => {
            let due = price(op);
            if left < due {
                return Err(Stop::Tired);
            }
            let one = work_out(
                lent,
                &query[first..],
                at + first,
                env,
                it,
                memory,
                left - due,
            )?;
            let other = work_out(lent, &query[last..], at + last, env, it, memory, one.left)?;
            pair_of(
                op,
                lent.scene.query_at + at,
                lent.scene.deep,
                lent.bytes,
                one.value,
                other.value,
                memory,
                other.left,
            )
        }
        Shape::Over(over) => {
            let inner = work_out(lent, &query[last..], at + last, env, it, memory, left)?;
            let part = &query[first..];
            match over {
                Over::Each => each_of(
                    lent,
                    part,
                    at + first,
                    env,
                    place_of(inner.value),
                    memory,
                    inner.left,
                ),
                Over::Keep => keep_of(
                    lent,
                    part,
                    at + first,
                    env,
                    place_of(inner.value),
                    memory,
                    inner.left,
                ),
                Over::Then => work_out(
                    lent,
                    part,
                    at + first,
                    env,
                    inner.value,
                    memory,
                    inner.left,
                ),
                Over::WithEnv => work_out(
                    lent,
                    part,
                    at + first,
                    inner.value,
                    it,
                    memory,
                    inner.left,
                ),
            }
        }
        Shape::Default => {
            let given = work_out(lent, &query[first..], at + first, env, it, memory, left)?;
            if is_empty(given.value) {
                work_out(lent, &query[last..], at + last, env, it, memory, given.left)
            } else {
                Ok(given)
            }
        }
        Shape::Either => {
            if left == 0 {
                return Err(Stop::Tired);
            }
            let side = side_of(it, first, last);
            let part = side.part;
            let there = memory.load(side.slot);
            work_out(
                lent,
                &query[part..],
                at + part,
                env,
                there,
                memory,
                left - 1,
            )
        }
    }
}

// What a query comes to for each of a bag. One for each is paid at once, since the slots are reserved at once.
#[cycle(work_out)]
fn each_of(
    lent: &Lent,
    query: &[u8],
    at: usize,
    env: Value,
    place: Place,
    memory: &mut Memory,
    budget: u64,
) -> Result<Came, Stop>
    requires { EachReady (set lent.now) query.now at env place (all memory.old) memory.old.top }
    ensures frozen { memory.new.kept.now ≡ memory.old.kept.now }
    ensures same { memory.new.made.ghost_name ≡ memory.old.made.ghost_name }
    ensures kept { Kept memory.old.top (all memory.old) (all memory.new) }
    ensures means { EachAnswers (set lent.now) query.now at env place (all memory.old) memory.old.top budget (all memory.new) (came_to memory.new.top result) }
{
    if budget < place.count as u64 {
        return Err(Stop::Tired);
    }
    let Some(start) = memory.reserve::<Value>(place.count) else {
        return Err(Stop::NoRoom);
    };
    let mut left = budget - place.count as u64;
    for i in 0..place.count {
        let x = memory.nth(place.start, i);
        let came = work_out(lent, query, at, env, x, memory, left)?;
        memory.put_nth(start, i, came.value);
        left = came.left;
    }
    Ok(Came {
        value: Value::Bag(Place {
            start,
            count: place.count,
        }),
        left,
    })
}

// Those of a bag for which a query is true. What was made to find that out is given up.
#[cycle(work_out)]
fn keep_of(
    lent: &Lent,
    query: &[u8],
    at: usize,
    env: Value,
    place: Place,
    memory: &mut Memory,
    budget: u64,
) -> Result<Came, Stop>
    requires { EachReady (set lent.now) query.now at env place (all memory.old) memory.old.top }
    ensures frozen { memory.new.kept.now ≡ memory.old.kept.now }
    ensures same { memory.new.made.ghost_name ≡ memory.old.made.ghost_name }
    ensures kept { Kept memory.old.top (all memory.old) (all memory.new) }
    ensures means { KeepAnswers (set lent.now) query.now at env place (all memory.old) memory.old.top budget (all memory.new) (came_to memory.new.top result) }
{
    let start = memory.top;
    let mut count = 0;
    let mut left = budget;
    for i in 0..place.count {
        if left == 0 {
            return Err(Stop::Tired);
        }
        let x = memory.nth(place.start, i);
        let high = memory.top;
        let came = work_out(lent, query, at, env, x, memory, left - 1)?;
        let yes = truth(came.value)?;
        left = came.left;
        memory.release(high);
        if yes {
            let Some(_slot) = memory.put_next(x) else {
                return Err(Stop::NoRoom);
            };
            count += 1;
        }
    }
    Ok(Came {
        value: Value::Bag(Place { start, count }),
        left,
    })
}
