// The order of data: which of two comes first. The definitions and the laws stand in specs/, and each function here promises one law.
#![tactic(auto)]

ghost use Rattle.ordering.specs.Order.{AlikeIsSame, AlikeTextIsSame, AlikeIffSame, WayFlips, WayTransits, WayTextIsLess};

pub fn alike_is_same_holds() -> u8
    ensures { AlikeIsSame }
{
    0
}

pub fn alike_text_is_same_holds() -> u8
    ensures { AlikeTextIsSame }
{
    0
}

pub fn alike_iff_same_holds() -> u8
    ensures { AlikeIffSame }
{
    0
}

pub fn way_flips_holds() -> u8
    ensures { WayFlips }
{
    0
}

pub fn way_transits_holds() -> u8
    ensures { WayTransits }
{
    0
}

pub fn way_text_is_less_holds() -> u8
    ensures { WayTextIsLess }
{
    0
}
