ghost use Rattle.ix_label.specs.Spelling.{spelling};
ghost use Rattle.std.specs.Prelude.{◌≡◌, ◌++◌, [], ◌∷◌, OnOk, OnErr};

use ix_label::{Form, Label};
use ix_model::NoMemory;
use std::marker::Model;
use std::mem;

/// A line that is being written at the end of bytes that are there.
///
/// What writes a piece of it answers `NoMemory` where there was none for that: the line isn't gone on with then, and `end` takes back
/// what was written of it.
#[derive(Drop)]
pub struct Line {
    bytes: Vec<u8>,
    start: usize,
}

impl Model for Line {
    ghost use Rattle.std.specs.Prelude.{length, ◌≤◌};
    ghost use Rattle.ix_report.specs.Drafted.{Drafted, cut_at};

    ghost Value = { Drafted };

    ghost view = { λ l. cut_at l.start l.bytes.items };

    ghost invariant = { λ l. l.start ≤ length l.bytes.items };
}

impl Line {
    /// An empty line after the bytes of `out`, which are taken out until the line ends.
    pub fn begin(out: &mut Vec<u8>) -> Line
        ensures before { result.before ≡ out.old.items }
        ensures text { result.text ≡ [] }
    {
        let alloc = *out.allocator();
        let bytes = mem::replace(out, Vec::new(alloc));
        let start = bytes.len();
        Line { bytes, start }
    }

    /// Writes the bytes at the line's end. After `NoMemory` what stood before the line is still there.
    #[inline(always)]
    pub fn push(&mut self, bytes: &[u8]) -> Result<(), NoMemory>
        ensures stays { self.new.before ≡ self.old.before }
        ensures text { OnOk result (self.new.text ≡ self.old.text ++ bytes.now) }
    {
        if self.bytes.capacity() - self.bytes.len() < bytes.len() {
            return self.push_grown(bytes);
        }
        match self.bytes.extend_from_slice(bytes) {
            Ok(()) => Ok(()),
            Err(_) => Err(NoMemory),
        }
    }

    /// The same where there is no room yet. It stands apart, so that what is put where `push` is called is short.
    #[cold]
    #[inline(never)]
    fn push_grown(&mut self, bytes: &[u8]) -> Result<(), NoMemory>
        ensures stays { self.new.before ≡ self.old.before }
        ensures text { OnOk result (self.new.text ≡ self.old.text ++ bytes.now) }
    {
        match self.bytes.extend_from_slice(bytes) {
            Ok(()) => Ok(()),
            Err(_) => Err(NoMemory),
        }
    }

    /// Writes one byte at the line's end, as `push` does.
    #[inline(always)]
    pub fn push_byte(&mut self, byte: u8) -> Result<(), NoMemory>
        ensures stays { self.new.before ≡ self.old.before }
        ensures text { OnOk result (self.new.text ≡ self.old.text ++ byte ∷ []) }
    {
        if self.bytes.len() == self.bytes.capacity() {
            return self.push_grown(&[byte]);
        }
        self.bytes.push_reserved(byte);
        Ok(())
    }

    /// Writes a label at the line's end, in its one spelling of the form.
    #[inline(always)]
    pub fn push_label(&mut self, form: Form, label: &Label) -> Result<(), NoMemory>
        ensures stays { self.new.before ≡ self.old.before }
        ensures text { OnOk result (self.new.text ≡ self.old.text ++ spelling form label.now) }
    {
        ix_text::push_label(&mut self.bytes, form, label)
    }

    /// Gives the bytes back to `out`: with the line where it was written, and without any of it where it wasn't.
    pub fn end(self, out: &mut Vec<u8>, written: Result<(), NoMemory>) -> Result<(), NoMemory>
        ensures same { result ≡ written }
        ensures ok { OnOk written (out.new.items ≡ self.before ++ self.text) }
        ensures err { OnErr written (out.new.items ≡ self.before) }
    {
        let Line { mut bytes, start } = self;
        if written.is_err() {
            bytes.truncate(start);
        }
        *out = bytes;
        written
    }
}
