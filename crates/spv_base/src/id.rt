ghost use Rattle.std.specs.Prelude.{◌≡◌, ℕ, ◌<◌, SomeIff};

use std::marker::Model;

/// The id of a type, a value, a label or another thing that an instruction defines. It is above 0.
#[derive(Clone, Copy, Debug, PartialEq, Eq)]
pub struct Id {
    number: u32,
}

impl Model for Id {
    ghost Value = { ℕ };

    ghost view = { λ id. id.number };

    ghost invariant = { λ id. 0 < id.number };

    ghost inverse = { λ n. record { number = n } };
}

impl Id {
    /// The id of this number. None exactly for 0.
    pub fn new(number: u32) -> Option<Id>
        ensures { SomeIff result (0 < number) number }
    {
        if number == 0 {
            None
        } else {
            Some(Id { number })
        }
    }

    /// The id's number.
    pub fn number(self) -> u32
        ensures same { result ≡ self }
        ensures above_zero { 0 < result }
    {
        self.number
    }
}
