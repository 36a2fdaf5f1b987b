//! How far a class is spelled: the counter of first mentions, and the room behind a length field.

ghost use Rattle.jvm_class_tally.specs.Tallies.{entered, judge_number, left_behind, moved, took};
ghost use Rattle.jvm_class_formats.specs.Formats.{any};
ghost use Rattle.std.specs.Int.{w16};
ghost use Rattle.std.specs.Prelude.{◌≡◌};

/// What is known in front of a part of a class that is judged.
#[derive(Clone, Copy, Debug)]
pub struct Tally {
    /// One more than the last index of the pool that was mentioned.
    pub counter: u32,
    /// How many bytes there may still be behind the length field of an attribute: `None` outside of one.
    pub room: Option<u32>,
}

impl Tally {
    /// The tally behind so many bytes: `None` exactly where there is no room for them.
    pub fn behind(self, bytes: u32) -> Option<Tally>
        ensures { result ≡ took bytes self }
    {
        match self.room {
            None => Some(self),
            Some(room) => {
                if room < bytes {
                    None
                } else {
                    Some(Tally {
                        counter: self.counter,
                        room: Some(room - bytes),
                    })
                }
            }
        }
    }

    /// The tally behind a number of two bytes.
    pub fn half(self, number: u16) -> Option<Tally>
        ensures { result ≡ judge_number w16 any number self }
    {
        self.behind(2)
    }

    /// The tally behind the number of these parts, which fits two bytes.
    pub fn count(self, number: usize) -> Option<Tally>
        ensures { result ≡ judge_number w16 any number self }
    {
        if number < 0x10000 {
            self.behind(2)
        } else {
            None
        }
    }

    /// The tally with another counter, where there is one.
    pub fn moved(self, counter: Option<u32>) -> Option<Tally>
        ensures { result ≡ moved self counter }
    {
        match counter {
            None => None,
            Some(counter) => Some(Tally {
                counter,
                room: self.room,
            }),
        }
    }

    /// The tally behind a length field, where there is none yet: the greatest room that one has.
    pub fn entered(self) -> Tally
        ensures { result ≡ entered self }
    {
        Tally {
            counter: self.counter,
            room: Some(u32::MAX),
        }
    }
}

/// The tally behind an attribute, where there is none outside of it.
pub fn outside(within: Option<Tally>) -> Option<Tally>
    ensures { result ≡ left_behind within }
{
    match within {
        None => None,
        Some(tally) => Some(Tally {
            counter: tally.counter,
            room: None,
        }),
    }
}
