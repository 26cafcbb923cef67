// The laws of a schedule, over the definitions by which the reader is proved.
ghost use Rattle.schedule.specs.Schedules.{RoundTrip, NothingLost, ReadingEnds, LineNumbers};

/// What is written in at most 60,000 bytes is read back: exactly those records, each at its offset, and then the end.
pub fn round_trip() -> u8
    ensures { RoundTrip 60000 }
{
    laws_hold();
    0
}

/// Bytes that are opened are the first byte, the records handed out as they are written, and nothing or a rest that begins no record.
pub fn nothing_lost() -> u8
    ensures { NothingLost 256 }
{
    laws_hold();
    0
}

/// Reading ends: no schedule has more records than one for each four bytes.
pub fn reading_ends() -> u8
    ensures { ReadingEnds 4 }
{
    laws_hold();
    0
}

/// No line has a number above 14,999: of 60,000 bytes one is the first, a setup has seven, and each record after it four at least.
pub fn line_numbers() -> u8
    ensures { LineNumbers 14999 }
{
    laws_hold();
    0
}

// Where the laws are proved.
fn laws_hold()
    ensures round_trip { RoundTrip 60000 }
    ensures nothing_lost { NothingLost 256 }
    ensures reading_ends { ReadingEnds 4 }
    ensures line_numbers { LineNumbers 14999 }
{}
