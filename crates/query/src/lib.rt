// Definitions: data, queries, types, sizes and what the desk promises (specs/). Each function's contract is a law of them, proved; the functions have nothing else to do.
#![tactic(auto)]

ghost use Rattle.query.specs.Laws.{SameIsSame, StaysInOrder, EachOnce, AsMany, NotLookedAt, NotLookedAtIt, CodeTells, OneTypeOnly, TypesAreSound, ComesToItsType, MatchedIsKept};

// What is told to be the same is the same, and nothing differs from itself.
pub fn same_is_same_holds() -> u8
    ensures { SameIsSame }
{
    0
}

// Two records in order, joined, are in order.
pub fn stays_in_order_holds() -> u8
    ensures { StaysInOrder }
{
    0
}

// Distinct leaves each once, and all that there were.
pub fn each_once_holds() -> u8
    ensures { EachOnce }
{
    0
}

// Asking each of a bag comes to as many.
pub fn as_many_holds() -> u8
    ensures { AsMany }
{
    0
}

// What goes along is not seen by a question that does not look at it.
pub fn not_looked_at_holds() -> u8
    ensures { NotLookedAt }
{
    0
}

// What a question is asked of is not seen by one that does not look at it.
pub fn not_looked_at_it_holds() -> u8
    ensures { NotLookedAtIt }
{
    0
}

// No two types have the same numbers.
pub fn code_tells_holds() -> u8
    ensures { CodeTells }
{
    0
}

// A question has one type at most.
pub fn one_type_only_holds() -> u8
    ensures { OneTypeOnly }
{
    0
}

// The type of a question is sound, where those of the schema, of what goes along and of it are.
pub fn types_are_sound_holds() -> u8
    ensures { TypesAreSound }
{
    0
}

// A question with a type comes to something of that type.
pub fn comes_to_its_type_holds() -> u8
    ensures { ComesToItsType }
{
    0
}

// Matching is keeping of a product.
pub fn matched_is_kept_holds() -> u8
    ensures { MatchedIsKept }
{
    0
}
