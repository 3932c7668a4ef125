// Laws of records. Each function's contract is a law of the definitions, proved; the functions have nothing else to do.
ghost use Rattle.records.specs.Laws.{LeftOutStaysInOrder, OnlyStaysInOrder, MergedIsBoth};

// A record in order with a field left out is in order.
pub fn left_out_stays_in_order_holds() -> u8
    ensures { LeftOutStaysInOrder }
{
    0
}

// Some fields of a record in order are in order.
pub fn only_stays_in_order_holds() -> u8
    ensures { OnlyStaysInOrder }
{
    0
}

// Going through two records in order side by side gives what putting in the fields of the second one by one gives.
pub fn merged_is_both_holds() -> u8
    ensures { MergedIsBoth }
{
    0
}
