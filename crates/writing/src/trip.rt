// Theorems about what is loaded and written out.
ghost use Rattle.writing.specs.Trip.{RoundTrip, ShortEnough};

// What was loaded is written out as it was read.
pub fn round_trip_holds() -> u8
    ensures { RoundTrip }
{
    0
}

// Nine numbers a part are room enough.
pub fn nine_a_part_are_enough() -> u8
    ensures { ShortEnough }
{
    0
}
