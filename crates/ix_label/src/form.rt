ghost use Rattle.std.specs.Prelude.{◌≡◌, ◌<◌};
ghost use Rattle.ix_label.specs.{Forms.{greatest, whole_run}, Faults.{is_text}};

/// The two forms of a label's text.
///
/// In form One the numbers go from 0 to 255, so it spells the narrow labels alone; in form Two
/// they go from 0 to 511. `*` stands for all numbers of the form.
#[derive(Debug, Clone, Copy, PartialEq, Eq)]
pub enum Form {
    /// The numbers from 0 to 255.
    One,
    /// The numbers from 0 to 511.
    Two,
}

impl Form {
    /// The greatest number.
    #[tactic(auto, unfolding(crate::specs::Forms::greatest))]
    pub(crate) fn greatest(self) -> u16
        ensures is { result ≡ greatest self }
        ensures small { result < 512 }
    {
        match self {
            Form::One => 255,
            Form::Two => 511,
        }
    }

    /// Whether the text is all numbers of the form as one run.
    pub(crate) fn is_whole_run(self, text: &[u8]) -> bool
        ensures { result ≡ is_text text.now (whole_run self) }
    {
        match self {
            Form::One => text == b"0-255".as_slice(),
            Form::Two => text == b"0-511".as_slice(),
        }
    }
}
