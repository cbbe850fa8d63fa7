//! Places in order, of which at most eight are kept.
ghost use Rattle.std.specs.Prelude.{◌≡◌, []};
ghost use Rattle.refusal_causes.specs.Places.{kept};
ghost use Rattle.refusal_causes.specs.inner.KeptPlaces.{kept_with, with_front, with_next};

use twe_base::Place;

/// Four places, or fewer: then the later ones are `None`.
#[derive(Clone, Copy, Debug)]
pub struct Four {
    /// The first.
    pub one: Option<Place>,
    /// The second.
    pub two: Option<Place>,
    /// The third.
    pub three: Option<Place>,
    /// The fourth.
    pub four: Option<Place>,
}

impl Four {
    /// With one more place at the end, if there are fewer than four.
    fn with_next(self, place: Place) -> Four
        ensures { result ≡ with_next place self }
    {
        if self.one.is_none() {
            return Four {
                one: Some(place),
                two: None,
                three: None,
                four: None,
            };
        }
        if self.two.is_none() {
            return Four {
                one: self.one,
                two: Some(place),
                three: None,
                four: None,
            };
        }
        if self.three.is_none() {
            return Four {
                one: self.one,
                two: self.two,
                three: Some(place),
                four: None,
            };
        }
        if self.four.is_none() {
            return Four {
                one: self.one,
                two: self.two,
                three: self.three,
                four: Some(place),
            };
        }
        self
    }

    /// With one more place at the front. The fourth is left out.
    fn with_front(self, place: Place) -> Four
        ensures { result ≡ with_front place self }
    {
        Four {
            one: Some(place),
            two: self.one,
            three: self.two,
            four: self.three,
        }
    }
}

/// Places in order: all of them, or of more than eight the first four and the last four.
#[derive(Clone, Copy, Debug)]
pub struct KeptPlaces {
    /// The first four, in order.
    pub first: Four,
    /// The last four, the last one first.
    pub last: Four,
    /// How many places there are; `u64::MAX` for so many or more.
    pub count: u64,
}

impl KeptPlaces {
    /// No places.
    pub(crate) fn none() -> KeptPlaces
        ensures { result ≡ kept [] }
    {
        let none = Four {
            one: None,
            two: None,
            three: None,
            four: None,
        };
        KeptPlaces {
            first: none,
            last: none,
            count: 0,
        }
    }

    /// With one more place at the end.
    pub(crate) fn with(self, place: Place) -> KeptPlaces
        ensures { result ≡ kept_with place self }
    {
        KeptPlaces {
            first: self.first.with_next(place),
            last: self.last.with_front(place),
            count: if self.count < u64::MAX {
                self.count + 1
            } else {
                u64::MAX
            },
        }
    }
}
