ghost use Rattle.std.specs.{Prelude.{◌≡◌, ◌+◌, ◌*◌, ◌≤◌, ◌++◌, ◌∷◌, [], length}, Fmt.{decimal}};
ghost use Rattle.ix_report.specs.Hex.{hex};

use itoa::write_digits;
use ix_text::hex_pair;
use std::marker::Model;

/// A text of at most 192 bytes that is written from its end to its front, as the digits of a number are, and then put into a
/// line at once. Contracts see its bytes.
///
/// What writes it stands where it is called: so no one else sees the place where the text starts, and that can stay in a register.
#[derive(Drop)]
pub struct Short {
    room: [u8; 192],
    start: usize,
}

impl Model for Short {
    ghost use Rattle.std.specs.Prelude.{List, ℕ, ◌≤◌, drop};

    ghost Value = { List ℕ };

    ghost view = { λ t. drop t.start t.room };

    ghost invariant = { λ t. t.start ≤ 192 };
}

impl Short {
    /// No text.
    #[inline(always)]
    pub fn new() -> Short
        ensures { result ≡ [] }
    {
        Short {
            room: [0; 192],
            start: 192,
        }
    }

    /// The text.
    #[inline(always)]
    pub fn as_bytes(&self) -> &[u8]
        ensures { result.now ≡ self.now }
    {
        &self.room[self.start..]
    }

    /// Writes one byte at the front.
    #[inline(always)]
    pub fn byte(&mut self, byte: u8)
        requires { length self.old + 1 ≤ 192 }
        ensures { self.new ≡ byte ∷ self.old }
    {
        self.start -= 1;
        self.room[self.start] = byte;
    }

    /// Writes bytes at the front.
    #[inline(always)]
    pub fn bytes(&mut self, bytes: &[u8])
        requires { length self.old + length bytes.now ≤ 192 }
        ensures { self.new ≡ bytes.now ++ self.old }
    {
        let end = self.start;
        self.start -= bytes.len();
        self.room[self.start..end].copy_from_slice(bytes);
    }

    /// Writes a number in decimal at the front.
    #[inline(always)]
    pub fn number(&mut self, n: u32)
        requires { length self.old + 10 ≤ 192 }
        ensures text { self.new ≡ decimal n ++ self.old }
        ensures few { length self.new ≤ length self.old + 10 }
    {
        self.start = write_digits(n as u64, &mut self.room, self.start);
    }

    /// Writes a number in decimal at the front, as `number` does. One of a single digit takes a short way, which stands where it is
    /// called.
    #[inline(always)]
    #[tactic(auto, using(std::proofs::lemmas::Fmt::decimal_digit))]
    pub fn small(&mut self, n: u32)
        requires { length self.old + 10 ≤ 192 }
        ensures text { self.new ≡ decimal n ++ self.old }
        ensures few { length self.new ≤ length self.old + 10 }
    {
        if n < 10 {
            self.byte(b'0' + n as u8);
        } else {
            self.number(n);
        }
    }

    /// Writes bytes as pairs of small hexadecimal digits at the front.
    #[inline(always)]
    pub fn hex(&mut self, bytes: &[u8])
        requires { length self.old + 2 * length bytes.now ≤ 192 }
        ensures text { self.new ≡ hex bytes.now ++ self.old }
        ensures count { length self.new ≡ length self.old + 2 * length bytes.now }
    {
        let mut left = bytes.len();
        'pairs: while left > 0 {
            left -= 1;
            self.bytes(&hex_pair(bytes[left]));
        }
    }
}
