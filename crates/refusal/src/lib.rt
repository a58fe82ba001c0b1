// What a call refuses, and where: the rows of the refusal table by name.
#![tactic(auto)]

ghost use Rattle.std.specs.Prelude.{◌≡◌};
ghost use Rattle.refusal.specs.Refusal.{number_of};

// Document 01, "Refusals and their places". A row's number is its value.
#[derive(Clone, Copy, Debug, PartialEq, Eq)]
pub enum Row {
    Count = 1,
    Code,
    Area,
    Value,
    Slope,
    Segment,
    Outside,
    Sheet,
    Head,
    Size,
    Room,
    Buffer,
    Triples,
    Whole,
}

impl Row {
    pub fn number(self) -> u32
        ensures { result ≡ number_of self }
    {
        self as u32
    }

    // The refusal by this row at a place.
    pub fn at(self, place: u32) -> Refusal
        ensures { result ≡ record { row = self; place = place } }
    {
        Refusal { row: self, place }
    }
}

#[derive(Clone, Copy, Debug, PartialEq, Eq)]
pub struct Refusal {
    pub row: Row,
    pub place: u32,
}

// Most rows refuse at place 0.
impl From<Row> for Refusal {
    ghost from_gives = { λ row refusal. refusal ≡ record { row = row; place = 0 } };

    fn from(row: Row) -> Refusal {
        row.at(0)
    }
}
