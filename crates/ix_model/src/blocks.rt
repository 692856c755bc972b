ghost use Rattle.std.specs.Prelude.{◌≡◌};
ghost use Rattle.ix_model.specs.rows.Telling.{blocks_for};

/// The bytes of a block.
const BLOCK: usize = 512;

/// The blocks of 512 bytes that a file of so many bytes takes.
pub fn blocks_for(len: usize) -> usize
    ensures { result ≡ blocks_for len }
{
    len.div_ceil(BLOCK)
}
