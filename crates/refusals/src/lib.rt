// Why a call is refused, and the number that it then gives: rule 12.1.
#![tactic(auto)]

ghost use Rattle.std.specs.Prelude.{◌≡◌};
ghost use Rattle.refusals.specs.Refusals.{answer_number, refusal_number};

#[derive(Clone, Copy, Debug, PartialEq, Eq)]
pub enum Refusal {
    // 1: the log breaks one of its rules
    BrokenLog,
    // 2: the entry is empty or runs backward, or past the regime end
    BadSpan,
    // 3: its MW are not 1 to 1,000, or its cause is 0
    BadPower,
    // 4: one of its minutes would lose more than rated capacity; on a day sheet, another entry covers one of them
    Clash,
    // 5: the log is full
    FullLog,
    // 6: there is no entry with that start and cause
    NoSuchEntry,
    // 7: the stretch runs backward, or past the regime end
    BadStretch,
    // 8: the book or a regime end is out of range, or two regime ends differ
    BadBook,
    // 9: something of a year is out of range
    BadYear,
    // 10: the floor comes out above the cap
    FloorAboveCap,
    // 11: an amount is above its limit
    TooLarge,
    // 12: a day, a period or the gap of two is out of range
    BadPeriod,
    // 13: the bytes are no return, no day sheet, or no plan
    Malformed,
    // 14: the buffer has no room for what is to be written
    NoRoom,
    // 15: a piece of a day sheet does not fit behind the last, crosses midnight, or starts before the last
    BadPiece,
    // 16: the start lies before the closed minute
    ClosedTime,
    // 17: the count, the step or the window of a plan is out of range
    BadPlan,
    // 18: a cell of a workbook is bad
    BadCell,
    // 19: an entry with that start and cause is held already
    HeldAlready,
    // 20: an overlap, or a cause other than 1, which no day sheet shows
    NotOnSheet,
}

// Why something of many parts is refused, and at which of them: the place of a byte, the number of an outage, the index of a cell.
#[derive(Clone, Copy, Debug, PartialEq, Eq)]
pub struct RefusedAt {
    pub why: Refusal,
    pub at: usize,
}

impl Refusal {
    // The number of rule 12.1.
    pub fn number(self) -> u8
        ensures { result ≡ refusal_number self }
    {
        match self {
            Refusal::BrokenLog => 1,
            Refusal::BadSpan => 2,
            Refusal::BadPower => 3,
            Refusal::Clash => 4,
            Refusal::FullLog => 5,
            Refusal::NoSuchEntry => 6,
            Refusal::BadStretch => 7,
            Refusal::BadBook => 8,
            Refusal::BadYear => 9,
            Refusal::FloorAboveCap => 10,
            Refusal::TooLarge => 11,
            Refusal::BadPeriod => 12,
            Refusal::Malformed => 13,
            Refusal::NoRoom => 14,
            Refusal::BadPiece => 15,
            Refusal::ClosedTime => 16,
            Refusal::BadPlan => 17,
            Refusal::BadCell => 18,
            Refusal::HeldAlready => 19,
            Refusal::NotOnSheet => 20,
        }
    }
}

// The part aside.
impl From<RefusedAt> for Refusal {
    ghost from_gives = { λ refused why. why ≡ refused.why };

    fn from(refused: RefusedAt) -> Refusal {
        refused.why
    }
}

// 0 where a call did what it was asked, or the refusal's number.
pub fn answer_number<T: Drop>(answer: Result<T, Refusal>) -> u8
    ensures { result ≡ answer_number answer }
{
    match answer {
        Ok(_) => 0,
        Err(why) => why.number(),
    }
}
