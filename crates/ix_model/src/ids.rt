/// The number of a process. Pids count from 1 and are never used again; pid 0 never lives.
#[derive(Clone, Copy, Debug, PartialEq, Eq)]
pub struct Pid(pub u32);

/// The number of an object: the inodes of the first file system from 0, then those of the next, and so on, then the pipes.
#[derive(Clone, Copy, Debug, PartialEq, Eq)]
pub struct Obj(pub u32);

/// A descriptor of a process. Those that exist are 0 to 31.
#[derive(Clone, Copy, Debug, PartialEq, Eq)]
pub struct Fd(pub u8);
