ghost use Rattle.std.specs.Prelude.{◌≡◌, length};

use crate::contents::Contents;
use ix_model::PrivSet;

/// A file or a directory under its number. What has no fixed length stays where it is in the image.
#[derive(Clone, Copy)]
pub struct Node<'a> {
    pub number: u32,
    pub frozen: bool,
    pub cap: PrivSet,
    pub lic: PrivSet,
    /// The 64 bytes of its label.
    pub label: &'a [u8],
    pub contents: Contents<'a>,
    ghost long: { length label.now ≡ 64 },
}
