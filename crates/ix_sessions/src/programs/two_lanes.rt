//! A script of two lanes, and the lines of its report.

/// Two lanes of one phase, each with a file of its own; then the first one reads the other's.
pub const SCRIPT: &[u8] = b"ix 1\n\
    proc a - * - -\n\
    proc b 4 * - -\n\
    file /x - free - - \"x\"\n\
    file /y - free - - \"y\"\n\
    phase\n\
    lane one\n\
    open a /x rw as f\n\
    write a f \"1\"\n\
    lane two\n\
    open b /y rw as f\n\
    write b f \"2\"\n\
    phase\n\
    lane one\n\
    open a /y r as g\n\
    read a g 1\n";

/// The entries of the first phase, without their numbers.
pub const ONE_OPENS: &[u8] = b" one 8 open p1 /x rw = number 0 @ -\n";

pub const ONE_WRITES: &[u8] = b" one 9 write p1 0 x31 = number 1 @ -\n";

pub const TWO_OPENS: &[u8] = b" two 11 open p2 /y rw = number 0 @ 4\n";

pub const TWO_WRITES: &[u8] = b" two 12 write p2 0 x32 = number 1 @ 4\n";

/// Those of the second.
pub const ONE_LOOKS: &[u8] = b" one 15 open p1 /y r = number 1 @ -\n";

pub const ONE_READS: &[u8] = b" one 16 read p1 1 1 = bytes 1 x32 @ 4\n";

/// What stands behind the entries.
pub const REST: &[u8] = b"objects\n\
    0 dir - free\n\
    1 file - free\n\
    2 file 4 free\n\
    processes\n\
    p1 4 live\n\
    p2 4 live\n\
    log\n\
    end 6 0\n";
