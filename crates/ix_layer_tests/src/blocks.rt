use ix_blocks::Blocks;
use std::alloc::Global;
use std::process::Abort;

/// The bytes of a file from 508 on, whose first block was cut, and which was then written to behind a gap.
fn read_behind_a_gap(alloc: Global) -> [u8; 8] {
    let mut out = [9; 8];
    let Ok(mut blocks) = Blocks::new(alloc, 3, 2) else {
        return out;
    };
    let _full = blocks.write(0, 0, &[7; 1_024]);
    let _cut = blocks.cut(0, 510);
    let _gap = blocks.write(0, 513, b"ab");
    blocks.read(0, 508, &mut out);
    out
}

#[test]
fn a_gap_and_a_reused_block_read_as_zeros(rt: HostRuntime) {
    assert!(rt; read_behind_a_gap(rt.alloc()) == [7, 7, 0, 0, 0, b'a', b'b', 9]);
}
