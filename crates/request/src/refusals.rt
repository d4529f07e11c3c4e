// What a request, a tick or a record is refused for (rule Refusals), each by its name.
ghost use Rattle.std.specs.Prelude.{◌≡◌};
ghost use Rattle.request.specs.Cascade.{refused};
ghost use Rattle.request.specs.refusals.Number.{number_of};

use crate::{Answer, refusal};

// Each with the number that is answered. FRAME is the door's, MOMENT a tick's.
#[derive(Clone, Copy, PartialEq, Eq, Debug)]
pub enum Refusal {
    Kind = 1,
    Degree = 2,
    Surface = 3,
    Path = 4,
    Room = 5,
    Value = 6,
    Parameter = 7,
    Balance = 8,
    Frame = 9,
    Stale = 10,
    Moment = 11,
}

impl From<Refusal> for u32 {
    ghost from_gives = { λ reason number. number ≡ number_of reason };

    fn from(reason: Refusal) -> u32 {
        reason as u32
    }
}

impl Refusal {
    // The refusal at a place.
    pub fn at(self, place: usize) -> Answer
        ensures { result ≡ refused (number_of self) place }
    {
        refusal(self.into(), place)
    }
}
