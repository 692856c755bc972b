ghost use Rattle.std.specs.Prelude.{◌≤◌};

/// What a client is told: the bytes from a place on.
#[derive(Clone, Copy)]
pub struct Text {
    pub bytes: [u8; 32],
    pub start: usize,
    ghost within: { start ≤ 32 },
}
