// What working out hands on: a value with what is left, or why it stopped.
ghost use Rattle.std.specs.Prelude.{◌≡◌, ◌-◌, ◌<◌, ◌≤◌, MatchResult};
ghost use Rattle.operators.specs.declared.came.Stop.TheVariants as stops;

use values::value::Value;

// A value, and what is left of the budget. Where free memory begins is told by the memory.
#[derive(Clone, Copy)]
pub struct Came {
    pub value: Value,
    pub left: u64,
}

#[derive(Clone, Copy)]
pub enum Stop {
    // more would have to be looked at than the budget allows
    Tired,
    // memory ends too soon
    NoRoom,
    // what was asked can't be done: a field that isn't there, a sum of texts
    Wrong,
}

// What is left of a budget once so much is paid, if that can be paid.
pub fn pay(left: u64, due: u64) -> Result<u64, Stop>
    ensures { MatchResult result (λ rest. (due ≤ left) × (rest ≡ left - due)) (λ s. (s ≡ stops.Tired) × (left < due)) }
{
    left.checked_sub(due).ok_or(Stop::Tired)
}
