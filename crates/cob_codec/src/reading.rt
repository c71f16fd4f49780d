ghost use Rattle.std.specs.Prelude.{◌≡◌};
ghost use Rattle.cob_codec.specs.Readings.{keeping_zones, reading_of, reads_whole, takes_any_zones};

/// How a number is read that is sent. What a strict reading of zones reads, the other reads too, as the same number (`strict_is_any`).
#[derive(Clone, Copy, PartialEq, Eq)]
pub enum Reading {
    /// As the number that its picture's digits hold; bytes of another number represent none.
    Pictured,
    /// A binary item as the number of all its bytes, whether its picture's digits hold it or not; another as [`Reading::Pictured`] does.
    Whole,
    /// A zoned, separate or packed item by any zones, as `read_any_zones` of its kind does; a binary one as [`Reading::Pictured`] does.
    AnyZones,
    /// A binary item as [`Reading::Whole`] does, another as [`Reading::AnyZones`] does.
    WholeAnyZones,
}

impl Reading {
    /// The reading by whether binary items are read whole, and others by any zones.
    pub fn of(whole: bool, any_zones: bool) -> Reading
        ensures is { result ≡ reading_of whole any_zones }
        ensures whole { reads_whole result ≡ whole }
        ensures zones { takes_any_zones result ≡ any_zones }
    {
        match (whole, any_zones) {
            (false, false) => Reading::Pictured,
            (true, false) => Reading::Whole,
            (false, true) => Reading::AnyZones,
            (true, true) => Reading::WholeAnyZones,
        }
    }

    /// Whether binary items are read as the numbers of all their bytes.
    #[inline(always)]
    pub fn is_whole(self) -> bool
        ensures { result ≡ reads_whole self }
    {
        match self {
            Reading::Pictured | Reading::AnyZones => false,
            Reading::Whole | Reading::WholeAnyZones => true,
        }
    }

    /// Whether the other kinds of numbers are read by any zones.
    #[inline(always)]
    pub fn takes_any_zones(self) -> bool
        ensures { result ≡ takes_any_zones self }
    {
        match self {
            Reading::Pictured | Reading::Whole => false,
            Reading::AnyZones | Reading::WholeAnyZones => true,
        }
    }

    /// The same reading, but by no other zones than strict ones.
    #[inline(always)]
    pub fn keeping_zones(self) -> Reading
        ensures { result ≡ keeping_zones self }
    {
        match self {
            Reading::Pictured | Reading::AnyZones => Reading::Pictured,
            Reading::Whole | Reading::WholeAnyZones => Reading::Whole,
        }
    }
}
