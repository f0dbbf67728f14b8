// What the bytes of a sheet say: its contents table, its items, its net and plan, and its faults, in specs/. Here only the enum in which
// every call tells a fault.
#![tactic(auto)]

ghost use Rattle.std.specs.Prelude.{◌≡◌};
ghost use Rattle.sheet.specs.Answered.{told};

// What is wrong with a sheet, or with the rows that are lent with it. Where an item is at fault its number stands beside: that of a place, a
// transition, an event or a pair.
#[derive(Clone, Copy, PartialEq, Eq)]
pub enum Fault {
    TooShort,
    OverLimit,
    StartsLate,
    StartsEarly,
    WrongEnd,
    OverOpening(u32),
    OverWeight(u32),
    NoTransition(u32),
    NoEvent(u32),
    SelfPair(u32),
    Repeated(u32),
    Cycle,
    NoPlace,
    ShortRow,
}

impl Fault {
    // The number by which C and the listing know it.
    // By hand, since C's header promises these numbers, which don't follow the order of the cases.
    pub fn number(self) -> u32
        ensures { result ≡ (told self).number }
    {
        match self {
            Fault::TooShort => 1,
            Fault::OverLimit => 2,
            Fault::WrongEnd => 4,
            Fault::OverOpening(_) => 5,
            Fault::OverWeight(_) => 6,
            Fault::NoTransition(_) => 7,
            Fault::NoEvent(_) => 8,
            Fault::SelfPair(_) => 9,
            Fault::Repeated(_) => 10,
            Fault::Cycle => 11,
            Fault::NoPlace => 12,
            Fault::ShortRow => 13,
            Fault::StartsLate => 14,
            Fault::StartsEarly => 15,
        }
    }

    // The item at fault, 0 where the fault has none.
    pub fn item(self) -> u32
        ensures { result ≡ (told self).item }
    {
        match self {
            Fault::OverOpening(i)
            | Fault::OverWeight(i)
            | Fault::NoTransition(i)
            | Fault::NoEvent(i)
            | Fault::SelfPair(i)
            | Fault::Repeated(i) => i,
            _ => 0,
        }
    }
}
