// Refusals: which row of the table a job meets, and at which place. Each reader hands one up by `?`.
#![tactic(auto)]

ghost use Rattle.std.specs.Prelude.{◌≡◌};
ghost use Rattle.refusals.specs.Meaning.{number_of};

// Why a job is refused, by the names of the table's rows.
#[derive(Clone, Copy, Debug, PartialEq, Eq)]
pub enum Reason {
    TooLong,
    Cut,
    Kind,
    Shape,
    Head,
    Vertex,
    Twice,
    Face,
    ChainItem,
    Stale,
    Target,
    RimOpen,
    NoFilling,
    Room,
}

// A reason's number in the table.
impl From<Reason> for u16 {
    ghost from_gives = { λ reason number. number ≡ number_of reason };

    fn from(reason: Reason) -> u16 {
        match reason {
            Reason::TooLong => 1,
            Reason::Cut => 2,
            Reason::Kind => 3,
            Reason::Shape => 4,
            Reason::Head => 5,
            Reason::Vertex => 6,
            Reason::Twice => 7,
            Reason::Face => 8,
            Reason::ChainItem => 9,
            Reason::Stale => 10,
            Reason::Target => 11,
            Reason::RimOpen => 12,
            Reason::NoFilling => 13,
            Reason::Room => 14,
        }
    }
}

// What a reader answers in place of what it was to read.
#[derive(Clone, Copy, Debug, PartialEq, Eq)]
pub struct Refusal {
    pub reason: Reason,
    pub place: usize,
}

impl Reason {
    // The refusal for this reason, at a place.
    pub fn at(self, place: usize) -> Refusal
        ensures { result ≡ record { reason = self; place = place } }
    {
        Refusal {
            reason: self,
            place,
        }
    }
}

impl Refusal {
    // the answer call is refused with 14 where less is lent: bytes of output, and of work memory
    pub const ROOM_OUT: usize = 2055;

    pub const ROOM_WORK: usize = 65536;
}
