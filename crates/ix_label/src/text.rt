ghost use Rattle.std.specs.{Prelude.{◌≡◌, ◌+◌, ◌<◌, ◌≤◌, [], ◌∷◌, ◌++◌, length}, Fmt.{decimal}};
ghost use Rattle.ix_label.specs.{Spelling.{item}, Scanning.{comma_after}};

use std::marker::Model;

/// A buffer for the text of one label. Contracts see the bytes of the text, at most 2,048.
#[derive(Drop)]
pub struct LabelText {
    bytes: [u8; 2048],
    len: usize,
}

impl Model for LabelText {
    ghost use Rattle.std.specs.Prelude.{List, ℕ, ◌≤◌, take};

    ghost Value = { List ℕ };

    ghost view = { λ t. take t.len t.bytes };

    ghost invariant = { λ t. t.len ≤ 2048 };
}

impl LabelText {
    /// A buffer with no text.
    pub fn new() -> LabelText
        ensures { result ≡ [] }
    {
        LabelText {
            bytes: [0; 2048],
            len: 0,
        }
    }

    /// The text, of at most 2,048 bytes.
    pub fn as_bytes(&self) -> &[u8]
        ensures bytes { result.now ≡ self.now }
        ensures few { length self.now ≤ 2048 }
    {
        &self.bytes[..self.len]
    }

    /// Empties the buffer.
    pub(crate) fn clear(&mut self)
        ensures { self.new ≡ [] }
    {
        self.len = 0;
    }

    /// Writes one byte.
    pub(crate) fn push(&mut self, byte: u8)
        requires { length self.old < 2048 }
        ensures { self.new ≡ self.old ++ byte ∷ [] }
    {
        self.bytes[self.len] = byte;
        self.len += 1;
    }

    /// Writes the number in decimal digits.
    #[tactic(auto, using(crate::proofs::Texts::decimals))]
    fn push_number(&mut self, number: u16)
        requires { length self.old + length (decimal number) ≤ 2048 }
        ensures { self.new ≡ self.old ++ decimal number }
    {
        if number < 10 {
            self.push(b'0' + number as u8);
        } else {
            self.push_number(number / 10);
            self.push(b'0' + (number % 10) as u8);
        }
    }

    /// Writes the run of the categories from `first` to `last` as one item.
    #[tactic(auto, using(crate::proofs::Texts::decimals), unfolding(crate::specs::Spelling::item))]
    fn push_run(&mut self, first: u16, last: u16)
        requires { length self.old + length (item (first, last)) ≤ 2048 }
        ensures { self.new ≡ self.old ++ item (first, last) }
    {
        if first == last {
            self.push_number(first);
        } else {
            self.push_number(first);
            self.push(b'-');
            self.push_number(last);
        }
    }

    /// Writes one more item: a comma where there is text, and the run of the categories from
    /// `first` to `last`.
    #[tactic(auto, using(crate::proofs::Texts::decimals), unfolding(crate::specs::Scanning::comma_after))]
    pub(crate) fn push_item(&mut self, first: u16, last: u16)
        requires { length (comma_after self.old ++ item (first, last)) ≤ 2048 }
        ensures { self.new ≡ comma_after self.old ++ item (first, last) }
    {
        if self.len == 0 {
            self.push_run(first, last);
        } else {
            self.push(b',');
            self.push_run(first, last);
        }
    }
}
