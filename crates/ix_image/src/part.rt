use ix_model::{Name, Obj};

/// What is written next of an image.
#[derive(Clone, Copy)]
pub enum Part {
    /// The first bytes, and how many file systems there are.
    Start,
    /// The file system at an index, or how many objects there are behind the last.
    FileSystem(usize),
    /// The object of a number, or nothing where it isn't in the tree, and nothing behind the last.
    Object(u32),
    /// The bytes of a file from a place on, or nothing behind the last.
    Bytes(u32, u64),
    /// The first of the names of a directory that are left, of which there are so many, with its object.
    Name(u32, u32, Name, Obj),
    End,
}
