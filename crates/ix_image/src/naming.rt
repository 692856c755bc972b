//! The names of a directory, which stand one behind the other in the image.
ghost use Rattle.std.specs.Prelude.{◌≡◌, is_ok, true};
ghost use Rattle.ix_image.specs.Reading.{links_at};

/// A name, and the number of the object that it gives.
#[derive(Clone, Copy)]
pub struct Link<'a> {
    pub name: &'a [u8],
    pub object: u32,
}

/// So many names with their objects, at the front of a text, where they can be read.
#[derive(Clone, Copy)]
pub struct Links<'a> {
    pub(crate) count: u32,
    pub(crate) text: &'a [u8],
    ghost readable: { is_ok (links_at count text.now) ≡ true },
}
