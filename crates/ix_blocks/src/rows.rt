ghost use Rattle.std.specs.Prelude.{◌≡◌, ◌+◌, ◌-◌, ◌<◌, ◌≤◌, length, take, drop, replicate, slice_get};
ghost use Rattle.ix_links.specs.{Chains.{chain_of}, Whole.{IsPool}};
ghost use Rattle.ix_blocks.specs.{Files.{laid_over}, Wholes.{laid_in}, Stored.{flats, flat, AreRows}};

use ix_links::Links;

/// How many bytes a block has.
pub(crate) const SIZE: usize = 512;

/// The bytes of a block.
pub(crate) type Block = [u8; SIZE];

/// Lays bytes over those of a file of so many blocks from a place on, block after block.
pub(crate) fn lay(
    links: &Links,
    blocks: &mut [Block],
    file: u32,
    held: usize,
    place: usize,
    bytes: &[u8],
)
    requires rows { AreRows links.now blocks.old }
    requires file { file < length links.now.chains }
    requires held { length (chain_of file links.now) ≡ held }
    requires within { place + length bytes.now ≤ length (flat blocks.old (chain_of file links.now)) }
    ensures rows { AreRows links.now blocks.new }
    ensures laid { flats blocks.new links.now.chains ≡ laid_in file place bytes.now (flats blocks.old links.now.chains) }
{
    let mut block = block_at(links, file, held, place / SIZE);
    let mut done = 0;
    while done < bytes.len() {
        let start = (place + done) % SIZE;
        let size = (SIZE - start).min(bytes.len() - done);
        match block {
            Some(here) => {
                lay_in(&mut blocks[here as usize], start, &bytes[done..done + size]);
                block = links.next(here);
            }
            None => unreachable!(),
        }
        done += size;
    }
}

/// Copies the bytes of a file of so many blocks from a place on, block after block, as many as fill `out`.
pub(crate) fn fetch(
    links: &Links,
    blocks: &[Block],
    file: u32,
    held: usize,
    place: usize,
    out: &mut [u8],
)
    requires rows { AreRows links.now blocks.now }
    requires file { file < length links.now.chains }
    requires held { length (chain_of file links.now) ≡ held }
    requires within { place + length out.old ≤ length (flat blocks.now (chain_of file links.now)) }
    ensures { out.new ≡ take (length out.old) (drop place (flat blocks.now (chain_of file links.now))) }
{
    let mut block = block_at(links, file, held, place / SIZE);
    let mut done = 0;
    while done < out.len() {
        let start = (place + done) % SIZE;
        let size = (SIZE - start).min(out.len() - done);
        match block {
            Some(here) => {
                let row = &blocks[here as usize];
                out[done..done + size].copy_from_slice(&row[start..start + size]);
                block = links.next(here);
            }
            None => unreachable!(),
        }
        done += size;
    }
}

/// Fills a block with zeros.
pub(crate) fn clear(row: &mut Block)
    ensures { row.new ≡ replicate 512 0 }
{
    *row = [0; SIZE];
}

/// Lays bytes over those of one block.
fn lay_in(row: &mut Block, start: usize, bytes: &[u8])
    requires { start + length bytes.now ≤ 512 }
    ensures { row.new ≡ laid_over start bytes.now row.old }
{
    row[start..start + bytes.len()].copy_from_slice(bytes);
}

/// The block at a place of a file's chain of so many blocks, none past its end. It goes there from the nearer end.
fn block_at(links: &Links, file: u32, held: usize, place: usize) -> Option<u32>
    requires file { file < length links.now.chains }
    requires law { IsPool links.now }
    requires held { length (chain_of file links.now) ≡ held }
    ensures { result ≡ slice_get (chain_of file links.now) place }
{
    if place >= held {
        return None;
    }
    let behind = held - 1 - place;
    if behind < place {
        block_before_last(links, file, behind)
    } else {
        block_behind_first(links, file, place)
    }
}

/// The block so many places behind the first of a file's chain, none past its end.
fn block_behind_first(links: &Links, file: u32, place: usize) -> Option<u32>
    requires file { file < length links.now.chains }
    requires law { IsPool links.now }
    ensures { result ≡ slice_get (chain_of file links.now) place }
{
    let mut block = links.first(file);
    for _passed in 0..place {
        if let Some(here) = block {
            block = links.next(here);
        }
    }
    block
}

/// The block so many places before the last of a file's chain.
fn block_before_last(links: &Links, file: u32, behind: usize) -> Option<u32>
    requires file { file < length links.now.chains }
    requires law { IsPool links.now }
    requires there { behind < length (chain_of file links.now) }
    ensures { result ≡ slice_get (chain_of file links.now) (length (chain_of file links.now) - 1 - behind) }
{
    let mut block = links.last(file);
    for _passed in 0..behind {
        if let Some(here) = block {
            block = links.previous(here);
        }
    }
    block
}
