// Bounds on what queries come to: each function's contract is a theorem.
#![tactic(auto)]

ghost use Rattle.bounds.specs.Bounds.{NoDeeper, TypeNoDeeper, StaysNamed, NoWider, AsWide, FewNames};

// Data nest no deeper than their type.
pub fn no_deeper_holds() -> u8
    ensures { NoDeeper }
{
    0
}

// The type of a query nests no deeper than what it is asked of and two for each of its parts.
pub fn type_no_deeper_holds() -> u8
    ensures { TypeNoDeeper }
{
    0
}

// No records have other names than schema and query.
pub fn stays_named_holds() -> u8
    ensures { StaysNamed }
{
    0
}

// A record has at most as many fields as there are names.
pub fn no_wider_holds() -> u8
    ensures { NoWider }
{
    0
}

// A record has as many fields as its type.
pub fn as_wide_holds() -> u8
    ensures { AsWide }
{
    0
}

// Schema and query have at most as many names as parts.
pub fn few_names_holds() -> u8
    ensures { FewNames }
{
    0
}
