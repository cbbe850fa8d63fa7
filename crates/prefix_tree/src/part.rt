//! The elements of paths.
ghost use Rattle.std.specs.Prelude.{◌≡◌, pos};

/// One element of a path.
#[derive(Clone, Copy, Debug, PartialEq, Eq, Hash)]
pub enum Part {
    /// A name, by its number.
    Name(u32),
    /// An index, which may be negative.
    Index(i64),
}

impl Part {
    /// The index of this number.
    pub(crate) fn index(number: u32) -> Self
        ensures { result ≡ Part.Index (pos number) }
    {
        Part::Index(i64::from(number))
    }
}
