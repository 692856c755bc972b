ghost use Rattle.std.specs.Prelude.{◌≡◌};
ghost use Rattle.ix_asking.specs.{Asking.{Done}, Copies.{copies}, Copying.{copying_asks, copying_most}};

use crate::asks::{Asks, Step};
use crate::held::Held;
use ix_model::{Call, Fd, Pid, Reply};

/// Where a `copy` stands.
#[derive(Clone, Copy)]
enum Part {
    Read,
    Write,
    Done,
}

/// A `copy`: it reads at most so many bytes, and where any came it writes those. It holds them in a buffer of its own, and can be used for
/// one `copy` after the other.
#[derive(Drop)]
pub struct Copying {
    line: u32,
    pid: Pid,
    from: Fd,
    to: Fd,
    count: u32,
    /// What it read.
    held: Held,
    at: Part,
}

impl Copying {
    /// One that asks for nothing yet.
    pub fn new() -> Copying
        ensures { copying_asks result ≡ Done tt }
    {
        let none = Fd(0);
        Copying {
            line: 0,
            pid: Pid(0),
            from: none,
            to: none,
            count: 0,
            held: Held::new(),
            at: Part::Done,
        }
    }

    /// Begins the `copy` of a process that stands in that line.
    pub fn begin(&mut self, line: u32, pid: Pid, from: Fd, to: Fd, count: u32)
        ensures asks { copying_asks self.new ≡ copies line pid from to count }
        ensures most { copying_most self.new ≡ 2 }
    {
        self.line = line;
        self.pid = pid;
        self.from = from;
        self.to = to;
        self.count = count;
        self.at = Part::Read;
    }
}

impl Asks for Copying {
    type Came = ();

    ghost End = { Unit {0} };

    ghost came = { λ u. u };

    ghost Kept = { Unit {0} };

    ghost kept = { λ c. tt };

    ghost asking = { copying_asks };

    ghost most = { copying_most };

    fn next(&self) -> Step<'_, ()> {
        let (line, pid) = (self.line, self.pid);
        match self.at {
            Part::Read => Step::Call {
                line,
                pid,
                call: Call::ReadFd {
                    fd: self.from,
                    count: self.count,
                },
            },
            Part::Write => {
                let bytes = self.held.as_bytes();
                if bytes.is_empty() {
                    return Step::Came(());
                }
                Step::Call {
                    line,
                    pid,
                    call: Call::WriteFd { fd: self.to, bytes },
                }
            }
            Part::Done => Step::Came(()),
        }
    }

    fn hear(&mut self, _reply: &Reply, bytes: &[u8]) {
        match self.at {
            Part::Read => {
                self.held.put(bytes);
                self.at = Part::Write;
            }
            _ => self.at = Part::Done,
        }
    }
}
