// A value in a bag, and what comes of bags: what is in its bags, how many, their sum, each once.
ghost use Rattle.std.specs.Prelude.{◌≡◌, ℕ, ◌-◌, ◌<◌, ◌≤◌, List, MatchResult};
ghost use Rattle.query.specs.Query.{apply1, in_bag, flat, count, sum};
ghost use Rattle.values.specs.Lent.{all};
ghost use Rattle.operators.specs.Came.{came_to};
ghost use Rattle.operators.specs.declared.came.Stop.TheVariants as stops;
ghost use Rattle.unary.specs.Unary.{Lies, Turns, TurnsOnce};

use bags::flat::{NotFlat, count_all, flat};
use bags::join::in_bag;
use bags::once::distinct;
use bags::sum::sum;
use operators::came::{Came, Stop, pay};
use operators::kinds::bag;
use values::lent::Memory;
use values::value::Value;

// What is left once so much is paid, where more may be due than any budget has.
fn pay_all(left: u64, due: u128) -> Result<u64, Stop>
    ensures { MatchResult result (λ rest. (due ≤ left) × (rest ≡ left - due)) (λ s. (s ≡ stops.Tired) × (left < due)) }
{
    let due = u64::try_from(due).map_err(|_| Stop::Tired)?;
    pay(left, due)
}

pub fn in_a_bag(v: Value, memory: &mut Memory, left: u64) -> Result<Came, Stop>
    ensures frozen { memory.new.kept.now ≡ memory.old.kept.now }
    ensures same { memory.new.made.ghost_name ≡ memory.old.made.ghost_name }
    ensures turns { Turns (apply1 in_bag) v (all memory.old) memory.old.top left (all memory.new) (came_to memory.new.top result) }
{
    let value = in_bag(memory, v).ok_or(Stop::NoRoom)?;
    Ok(Came { value, left })
}

// What a bag's bags hold, in one bag. It is paid how many bags there are, and how many things come out, before they are copied.
pub fn flattened(v: Value, memory: &mut Memory, left: u64) -> Result<Came, Stop>
    requires { Lies v (all memory.old) memory.old.top }
    ensures frozen { memory.new.kept.now ≡ memory.old.kept.now }
    ensures same { memory.new.made.ghost_name ≡ memory.old.made.ghost_name }
    ensures turns { Turns (apply1 flat) v (all memory.old) memory.old.top left (all memory.new) (came_to memory.new.top result) }
{
    let place = bag(v)?;
    let rest = pay(left, place.count as u64)?;
    let count = count_all(&memory.row(), place).ok_or(Stop::Wrong)?;
    let left = pay_all(rest, count)?;
    match flat(memory, place) {
        Ok(made) => Ok(Came {
            value: made.bag,
            left,
        }),
        Err(NotFlat::NoRoom(_)) => Err(Stop::NoRoom),
        Err(NotFlat::NoBag) => Err(Stop::Wrong),
    }
}

// How many things a bag holds.
pub fn counted(v: Value, left: u64) -> Result<Came, Stop>
    ensures { (m : List ℕ) (top : ℕ) → Turns (apply1 count) v m top left m (came_to top result) }
{
    let many = bag(v)?.count as u64;
    let left = pay(left, many)?;
    Ok(Came {
        value: Value::Number(many),
        left,
    })
}

pub fn summed(v: Value, memory: &Memory, left: u64) -> Result<Came, Stop>
    requires { Lies v (all memory.now) memory.now.top }
    ensures { Turns (apply1 sum) v (all memory.now) memory.now.top left (all memory.now) (came_to memory.now.top result) }
{
    let place = bag(v)?;
    let left = pay(left, place.count as u64)?;
    let total = sum(&memory.row(), place).ok_or(Stop::Wrong)?;
    Ok(Came {
        value: Value::Number(total),
        left,
    })
}

// Each thing of a bag once. It is paid for each pair of things, which may be more than any budget.
pub fn once(
    deep: usize,
    bytes: &[u8],
    v: Value,
    memory: &mut Memory,
    left: u64,
) -> Result<Came, Stop>
    requires { Lies v (all memory.old) memory.old.top }
    ensures frozen { memory.new.kept.now ≡ memory.old.kept.now }
    ensures same { memory.new.made.ghost_name ≡ memory.old.made.ghost_name }
    ensures turns { TurnsOnce bytes.now deep v (all memory.old) memory.old.top left (all memory.new) (came_to memory.new.top result) }
{
    let place = bag(v)?;
    let many = place.count as u128;
    let left = pay_all(left, many * many)?;
    let value = distinct(bytes, memory, place, deep).ok_or(Stop::NoRoom)?;
    Ok(Came { value, left })
}
