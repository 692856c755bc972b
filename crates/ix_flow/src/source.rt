ghost use Rattle.std.specs.Prelude.{◌≡◌};
ghost use Rattle.ix_flow.specs.Sides.{same_origin};

/// Where bytes in a row came from, by the place at which the first of them would stand.
#[derive(Clone, Copy)]
pub enum Source {
    /// From a write: the place of its entry, where its first byte was put, and the number of the label that it was written
    /// under.
    Write { place: u32, start: u32, label: u32 },
    /// From a file of the config, by its number, and the number of the label that it has there.
    File { object: u32, label: u32 },
    /// From a gap.
    Gap,
}

impl Source {
    /// Whether the two are of one write, of one file, or both of gaps: a write and a file have one label each.
    pub fn same_origin(self, other: Source) -> bool
        ensures { result ≡ same_origin self other }
    {
        match self {
            Source::Write { place, start, .. } => match other {
                Source::Write {
                    place: that,
                    start: begun,
                    ..
                } => place == that && start == begun,
                _ => false,
            },
            Source::File { object, .. } => match other {
                Source::File { object: that, .. } => object == that,
                _ => false,
            },
            Source::Gap => matches!(other, Source::Gap),
        }
    }
}
