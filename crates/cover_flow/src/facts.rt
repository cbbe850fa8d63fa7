//! The dataflow fact of a future at a point, and the facts of 128 futures in two words.
ghost use Rattle.std.specs.Prelude.{◌≡◌, ◌<◌, ◌^◌, nat_le, nat_lt, ◌-◌, ◌&&◌};
ghost use Rattle.cover_flow.specs.Flow.{fact_of, is_among, is_set};
ghost use Rattle.cover_flow.specs.inner.After.{nowhere};
ghost use Rattle.cover_flow.specs.inner.Words.{joined_words, mask_of, none_come, put_out_words, start_words, taken_in_words};

/// How many futures are followed at once.
pub const FUTURES_AT_ONCE: u32 = 128;

/// The dataflow fact of a future at a point: whether on some control path to the point it is out, and whether on some it
/// is not. If no path comes there, both are false.
#[derive(Clone, Copy, Debug)]
pub struct Fact {
    /// On some path it is out.
    pub out: bool,
    /// On some path it is not.
    pub not_out: bool,
}

impl Fact {
    /// The fact if no path comes.
    pub fn nowhere() -> Fact
        ensures { result ≡ nowhere }
    {
        Fact {
            out: false,
            not_out: false,
        }
    }
}

/// The facts of 128 futures at a point, with a bit for each future in each word.
#[derive(Clone, Copy, Debug)]
pub struct Facts {
    /// The futures that are out on some path.
    pub out: u128,
    /// The futures that are not out on some path.
    pub not_out: u128,
}

/// Whether the bit is set.
fn is_set(word: u128, bit: u32) -> bool
    requires { bit < 128 }
    ensures { result ≡ is_set word bit }
{
    (word >> bit) & 1 == 1
}

/// The word with this bit alone.
fn one_bit(bit: u32) -> u128
    requires { bit < 128 }
    ensures { result ≡ 2 ^ bit }
{
    1 << bit
}

/// Whether the future is one of the 128 from the first one on.
pub fn is_among(first: u32, future: u32) -> bool
    ensures { result ≡ is_among first future }
{
    first <= future && future - first < FUTURES_AT_ONCE
}

/// The word with the bit of the future, if it is one of the 128 from the first one on; otherwise 0.
pub fn mask(first: u32, future: u32) -> u128
    ensures { result ≡ mask_of first future }
{
    if first <= future && future - first < 128 {
        one_bit(future - first)
    } else {
        0
    }
}

impl Facts {
    /// The facts at the start of a body, when nothing is spawned yet.
    pub fn at_start() -> Facts
        ensures { result ≡ start_words }
    {
        Facts {
            out: 0,
            not_out: u128::MAX,
        }
    }

    /// The facts if no path comes.
    pub fn nowhere() -> Facts
        ensures { result ≡ none_come }
    {
        Facts { out: 0, not_out: 0 }
    }

    /// The fact of one of the futures, counted from 0.
    pub fn fact(self, bit: u32) -> Fact
        requires { bit < 128 }
        ensures { result ≡ fact_of self bit }
    {
        Fact {
            out: is_set(self.out, bit),
            not_out: is_set(self.not_out, bit),
        }
    }

    /// The join of the facts: on the paths of both.
    pub fn joined(self, other: Facts) -> Facts
        ensures { result ≡ joined_words self other }
    {
        Facts {
            out: self.out | other.out,
            not_out: self.not_out | other.not_out,
        }
    }

    /// The facts after a spawn into the future of the mask.
    pub fn put_out(self, mask: u128) -> Facts
        ensures { result ≡ put_out_words mask self }
    {
        Facts {
            out: self.out | (self.not_out & mask),
            not_out: self.not_out & !mask,
        }
    }

    /// The facts after a join of the future of the mask.
    pub fn taken_in(self, mask: u128) -> Facts
        ensures { result ≡ taken_in_words mask self }
    {
        Facts {
            out: self.out & !mask,
            not_out: self.not_out | (self.out & mask),
        }
    }
}
