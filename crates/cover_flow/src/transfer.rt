//! Transfer functions: what going through statements does to the facts of 128 futures.
ghost use Rattle.std.specs.Prelude.{◌≡◌};
ghost use Rattle.cover_flow.specs.inner.Transfers.{applied, entered, nothing_passes, transfers_joined, transfers_looped, transfers_put_out, transfers_taken_in, unchanged};

use crate::facts::Facts;

/// What going through statements does to the facts of 128 futures. It is linear: it is known from what it does if all
/// futures are out before, and if none is.
#[derive(Clone, Copy, Debug)]
pub struct Transfer {
    /// The facts after, if all futures are out before.
    pub from_out: Facts,
    /// The facts after, if none is.
    pub from_not_out: Facts,
}

impl Transfer {
    /// Nothing changes.
    pub fn unchanged() -> Transfer
        ensures { result ≡ unchanged }
    {
        Transfer {
            from_out: Facts {
                out: u128::MAX,
                not_out: 0,
            },
            from_not_out: Facts {
                out: 0,
                not_out: u128::MAX,
            },
        }
    }

    /// No path goes through.
    pub fn nowhere() -> Transfer
        ensures { result ≡ nothing_passes }
    {
        Transfer {
            from_out: Facts::nowhere(),
            from_not_out: Facts::nowhere(),
        }
    }

    /// The facts after.
    fn apply(self, facts: Facts) -> Facts
        ensures { result ≡ applied self facts }
    {
        Facts {
            out: (facts.out & self.from_out.out) | (facts.not_out & self.from_not_out.out),
            not_out: (facts.out & self.from_out.not_out)
                | (facts.not_out & self.from_not_out.not_out),
        }
    }

    /// The facts before each test of a loop of which this is a turn.
    pub fn enter(self, facts: Facts) -> Facts
        ensures { result ≡ entered self facts }
    {
        facts.joined(self.apply(facts))
    }

    /// Either the one or the other.
    pub fn joined(self, other: Transfer) -> Transfer
        ensures { result ≡ transfers_joined self other }
    {
        Transfer {
            from_out: self.from_out.joined(other.from_out),
            from_not_out: self.from_not_out.joined(other.from_not_out),
        }
    }

    /// And then a spawn into the future of the mask.
    pub fn put_out(self, mask: u128) -> Transfer
        ensures { result ≡ transfers_put_out mask self }
    {
        Transfer {
            from_out: self.from_out.put_out(mask),
            from_not_out: self.from_not_out.put_out(mask),
        }
    }

    /// And then a join of the future of the mask.
    pub fn taken_in(self, mask: u128) -> Transfer
        ensures { result ≡ transfers_taken_in mask self }
    {
        Transfer {
            from_out: self.from_out.taken_in(mask),
            from_not_out: self.from_not_out.taken_in(mask),
        }
    }

    /// And then any number of turns of a loop.
    pub fn looped(self, turn: Transfer) -> Transfer
        ensures { result ≡ transfers_looped turn self }
    {
        Transfer {
            from_out: turn.enter(self.from_out),
            from_not_out: turn.enter(self.from_not_out),
        }
    }
}
