ghost use Rattle.std.specs.Prelude.{◌≤◌};

use ix_gen::text;
use std::alloc::Global;
use std::process::Abort;

/// The text of one command, with which each text begins.
const ONE: &[u8] = b"ix 1\n\
      limit log 0\n\
      proc a - 0-7 - -\n\
      proc b 3 * - -\n\
      proc c - - - -\n\
      file /x - free - - 64*00\n\
      file /y 5 free - - 64*00\n\
      phase\n\
      lane g\n\
      open a /x rw\n\
      open b /y r\n\
      open c /y r\n\
      seek a 0 0\n";

/// What that of seven has behind it: the last command is the first again.
const SIX_MORE: &[u8] = b"write a 0 8*41\n\
      seek b 0 0\n\
      read b 0 16\n\
      read a 0 4\n\
      read c 0 8\n\
      seek a 0 0\n";

/// Whether the text of so many commands is as long as this, and begins and ends so.
fn is_text(alloc: Global, commands: u32, length: usize, end: &[u8]) -> bool
    requires { (1 ≤ commands) × (commands ≤ 100000) }
{
    match text(alloc, commands) {
        Ok(text) => {
            text.len() == length
                && text.as_slice().starts_with(ONE)
                && text.as_slice().ends_with(end)
        }
        Err(_) => false,
    }
}

#[test]
fn texts_are_told_whole(rt: HostRuntime) {
    assert!(rt; is_text(rt.alloc(), 1, 175, ONE));
    assert!(rt; is_text(rt.alloc(), 7, 246, SIX_MORE));
    assert!(rt; is_text(rt.alloc(), 100_000, 1_183_499, b"read b 0 16\n"));
}
