// What holds of the format itself: each function's contract is a theorem.
ghost use Rattle.format.specs.Wire.{requests};
ghost use Rattle.format.specs.Reading.{ReadBack, OneWay, OnePlace, AsksOne};

// Each request is read back as it was written.
pub fn read_back_holds() -> u8
    ensures { ReadBack }
{
    0
}

// Two requests with the same bytes are the same, whatever follows them.
pub fn one_way_holds() -> u8
    ensures { OneWay requests }
{
    0
}

// Bytes that are no request are garbled at one place only.
pub fn one_place_holds() -> u8
    ensures { OnePlace requests }
{
    0
}

// Bytes ask one thing only: one request, or one place at which they are garbled.
pub fn asks_one_holds() -> u8
    ensures { AsksOne }
{
    0
}
