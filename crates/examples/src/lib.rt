// Three lots of grain: what questions about them come to and how much is looked at. Each function's contract says it of the definitions, and is proved by working it out.
#![tactic(auto)]

ghost use Rattle.std.specs.Prelude.{◌≡◌};
ghost use Rattle.query.specs.Data.{num};
ghost use Rattle.query.specs.Query.{came, asked};
ghost use Rattle.query.specs.Types.{tables_are};
ghost use Rattle.query.specs.Size.{all_sound};
ghost use Rattle.examples.specs.ThreeLots.{tables, schema, all_kilos, rye_lots, the_rye_lots, kept_pairs, matched_lots, weighed_lots, rye_kilos, lots_with_kilos, the_lots_with_kilos, kinds, the_kinds, kilos_of_lots, has_type};

// The schema is sound, and the tables are of it.
pub fn tables_fit() -> bool
    ensures { (result ≡ all_sound schema) × (result ≡ tables_are tables schema) }
{
    true
}

// The sum of all kilos; 10 are looked at.
pub fn all_kilos() -> u64
    ensures { asked tables all_kilos ≡ came 10 (num result) }
{
    115
}

// How much is looked at for the lots of rye, 1 and 3.
pub fn work_for_rye_lots() -> u64
    ensures { asked tables rye_lots ≡ came result the_rye_lots }
{
    9
}

// How much is looked at for each lot with each of its weights, kept of all pairs: 1 with 40, 1 with 5, 2 with 70.
pub fn work_for_kept_pairs() -> u64
    ensures { asked tables kept_pairs ≡ came result weighed_lots }
{
    51
}

// How much is looked at for the same by matching.
pub fn work_for_matched_lots() -> u64
    ensures { asked tables matched_lots ≡ came result weighed_lots }
{
    9
}

// The sum of the kilos of rye; 25 are looked at.
pub fn rye_kilos() -> u64
    ensures { asked tables rye_kilos ≡ came 25 (num result) }
{
    45
}

// How much is looked at for each lot with its kilos: 1 with 40 and 5, 2 with 70, 3 with none.
pub fn work_for_lots_with_kilos() -> u64
    ensures { asked tables lots_with_kilos ≡ came result the_lots_with_kilos }
{
    51
}

// How much is looked at for what there are lots of, each once: oats and rye.
pub fn work_for_kinds() -> u64
    ensures { asked tables kinds ≡ came result the_kinds }
{
    16
}

// Those questions have a type.
pub fn they_have_types() -> bool
    ensures value { result ≡ has_type all_kilos }
    ensures value_2 { result ≡ has_type rye_lots }
    ensures value_3 { result ≡ has_type kept_pairs }
    ensures value_4 { result ≡ has_type matched_lots }
    ensures value_5 { result ≡ has_type rye_kilos }
    ensures value_6 { result ≡ has_type lots_with_kilos }
    ensures value_7 { result ≡ has_type kinds }
{
    true
}

// Lots have no kilos of their own: a question for them has no type.
pub fn kilos_of_lots_have_type() -> bool
    ensures { result ≡ has_type kilos_of_lots }
{
    false
}
