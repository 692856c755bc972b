//! File systems: how they are read, and which numbers are theirs.
ghost use Rattle.std.specs.{Prelude.{◌≡◌, ◌≤◌, ◌<◌, ℕ, length, IfOk}, List.{AllByRecursion}};
ghost use Rattle.ix_image.specs.{Image.{IsFileSystem}, Trees.{inodes_in, home}, Meant.{Gives, GivesOrStops}, Reading.{file_system_at, file_systems_at}};
ghost use Rattle.ix_model.specs.world.World.{fs_at};

use crate::fault::{Fault, Stop};
use crate::fields::{bytes_at, number_at, text_at};
use crate::labels::{LABEL_LEN, label_in};
use crate::memory::push;
use crate::rules::BAD_NAME;
use ix_label::Label;
use ix_model::FsSpec;
use ix_text::name_of;
use std::alloc::Global;

/// The most blocks, and the most inodes, of a file system.
const MOST_UNITS: u32 = 65_536;

/// A file system.
#[tactic(auto, unfolding(crate::specs::Reading::file_system_at, crate::specs::Reading::label_at, crate::specs::Reading::name_at, ix_text::specs::Names::name_of))]
fn file_system_at(bytes: &[u8]) -> Result<(FsSpec, &[u8]), Fault>
    ensures { Gives (λ x. (x.0, x.1.now)) result (file_system_at bytes.now) }
{
    let (word, rest) = text_at(bytes)?;
    let Some(name) = name_of(word) else {
        return Err(Fault::here(BAD_NAME, bytes));
    };
    let (ceiling, rest) = bytes_at(LABEL_LEN, rest)?;
    let (blocks, rest) = number_at(1, MOST_UNITS, rest)?;
    let (inodes, rest) = number_at(1, MOST_UNITS, rest)?;
    let fs = FsSpec {
        name,
        ceiling: label_in(ceiling),
        blocks,
        inodes,
    };
    Ok((fs, rest))
}

/// So many file systems.
pub fn file_systems_at(
    alloc: Global,
    count: u32,
    bytes: &[u8],
) -> Result<(Vec<FsSpec>, &[u8]), Stop>
    ensures read { GivesOrStops (λ x. (x.0.items, x.1.now)) result (file_systems_at count bytes.now) }
    ensures count { IfOk result (λ x. length x.0.items ≡ count) }
    ensures each { IfOk result (λ x. AllByRecursion IsFileSystem x.0.items) }
{
    let mut fss = Vec::new(alloc);
    let mut rest = bytes;
    for _ in 0..count {
        match file_system_at(rest) {
            Ok((fs, after)) => {
                push(&mut fss, fs)?;
                rest = after;
            }
            Err(fault) => return Err(Stop::Fault(fault)),
        }
    }
    Ok((fss, rest))
}

/// How many inodes the file systems have in all.
pub fn inodes_in(fss: &[FsSpec]) -> u32
    requires few { length fss.now ≤ 16 }
    requires each { AllByRecursion IsFileSystem fss.now }
    ensures is { result ≡ inodes_in fss.now }
    ensures few { result ≤ 1048576 }
{
    let mut all = 0;
    for fs in fss {
        all += fs.inodes;
    }
    all
}

/// Which file system a number is of, from 0; how many there are, where it is of none.
pub fn home(fss: &[FsSpec], number: u32) -> usize
    ensures { result ≡ home fss.now number }
{
    let mut rest = number;
    for (k, fs) in fss.iter().enumerate() {
        if rest < fs.inodes {
            return k;
        }
        rest -= fs.inodes;
    }
    fss.len()
}

/// The ceiling of a number's file system.
pub fn ceiling_of(fss: &[FsSpec], number: u32) -> Label
    ensures { result ≡ (fs_at fss.now (home fss.now number)).ceiling }
{
    match fss.get(home(fss, number)) {
        Some(fs) => fs.ceiling,
        None => Label::top(),
    }
}
