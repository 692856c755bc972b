ghost use Rattle.std.specs.Prelude.{◌≡◌, ◌+◌, ◌<◌, ◌≤◌, ◌++◌, min, take, drop, IsTrue, IfOk, is_some, IfSome, Some, length, if◌then◌else◌};
ghost use Rattle.std.proofs.Common.{option_map};
ghost use Rattle.std.specs.Option.{option_copied};
ghost use Rattle.ix_label.specs.Category.{leq};
ghost use Rattle.ix_model.specs.world.{World.{at, fs_at}, Numbers.{first_inode}, Contents.{spliced, cut_to}};
ghost use Rattle.ix_blocks.specs.Files.{most};
ghost use Rattle.ix_inode.specs.{Shown.{new_node, is_dir_kind}, declared.node.Node.{Node}};
ghost use Rattle.ix_inode.specs.Nodes.{changed, vacant_in, made, without, holding, bytes_at, is_file_at, has_space, length_after, told_at, ceiling_at, opened};
ghost use Rattle.ix_inode.specs.Nodes.{fs_ceiling, with_node, are_within, blocks_of, free_blocks};

use crate::node::{Inode, Node};
use crate::spot::{object_of, spot_of, spot_there};
use crate::volume::Volume;
use ix_blocks::NoSpace;
use ix_label::Label;
use ix_model::{FsSpec, Kind, NoMemory, Obj, PrivSet};
use std::alloc::Global;
use std::marker::Model;

/// The files and directories of all file systems, by number: a record of each, and its bytes.
///
/// An inode is on the file system in whose range its number lies, and its label is at or below the ceiling there.
/// Contracts see a table of the records and one of the bytes; at a number where nothing stands there are none. All
/// memory is taken by [`new`](Inodes::new). A call that names an inode looks for its file system first, at most 16
/// steps.
///
/// Each call but [`get`](Inodes::get) and [`kept`](Inodes::kept) that names an inode asks that it is there, and a file where
/// the call is on bytes. File systems are numbered from 0, and a call asks that one is below their number. Sizes and offsets are in bytes.
#[derive(Drop)]
pub struct Inodes {
    volumes: Vec<Volume>,
}

impl Model for Inodes {
    ghost use Rattle.std.specs.Coded.{codes};
    ghost use Rattle.ix_label.specs.contracts.label.Label as label_type;
    ghost use Rattle.ix_inode.specs.{Nodes.{Nodes}, Volumes.{nodes_of, AreVolumes}};

    ghost Value = { Nodes };

    ghost coded = { Prim.hlevel (codes, label_type.the_row.coded) };

    ghost view = { λ m. nodes_of m.volumes.items };

    ghost invariant = { λ m. AreVolumes m.volumes.items };
}

impl Inodes {
    /// The file systems as they are made: on each its root directory, which is its first inode, and nothing else. They
    /// are at most 16, of 1 to 65,536 blocks and inodes each.
    ///
    /// It takes all memory that there will be, and answers `NoMemory` where there is not so much. It costs a step for
    /// each inode and each block.
    pub fn new(alloc: Global, fss: &[FsSpec]) -> Result<Inodes, NoMemory>
        requires { IsTrue (are_within fss.now) }
        ensures { IfOk result (λ s. s ≡ opened fss.now) }
    {
        let mut volumes = Vec::new(alloc);
        let mut first = 0;
        for (k, spec) in fss.iter().enumerate() {
            let volume = Volume::new(alloc, k as u32, first, *spec)?;
            volumes.push(volume)?;
            first += spec.inodes;
        }
        Ok(Inodes { volumes })
    }

    /// The lowest free number of a file system; None exactly where none is free. Constant time.
    pub fn vacant(&self, fs: u32) -> Option<Obj>
        requires { fs < length self.now.fss }
        ensures { option_map (λ o. o.0) result ≡ vacant_in fs self.now }
    {
        let volume = &self.volumes[fs as usize];
        object_of(volume.first, volume.nodes.vacant())
    }

    /// A new directory, or for any other kind a new file, under the lowest free number of a file system; None, with no
    /// change, exactly where none is free. It is at bottom, not frozen and without privileges, and it holds nothing.
    ///
    /// It costs the logarithm of the number of free ones.
    pub fn make(&mut self, fs: u32, kind: Kind) -> Option<Obj>
        requires { fs < length self.old.fss }
        ensures number { option_map (λ o. o.0) result ≡ vacant_in fs self.old }
        ensures made { self.new ≡ made (vacant_in fs self.old) (new_node fs (is_dir_kind kind)) self.old }
    {
        let volume = &mut self.volumes[fs as usize];
        let first = volume.first;
        object_of(first, volume.nodes.take(Node::new(fs, is_dir(kind))))
    }

    /// The root directory of a file system: its first inode. Constant time.
    pub fn root(&self, fs: u32) -> Obj
        requires { fs < length self.now.fss }
        ensures { result.0 ≡ first_inode self.now.fss fs }
    {
        Obj(self.volumes[fs as usize].first)
    }

    /// Lets a file or a directory go, with its bytes: its number and its blocks are free from then on. All else stays.
    ///
    /// It costs the logarithm of the number of free numbers, and a step for each block.
    pub fn free(&mut self, obj: Obj)
        requires { IsTrue (is_some (at self.old.nodes obj.0)) }
        ensures { self.new ≡ without obj.0 self.old }
    {
        let spot = spot_there(self.volumes.as_slice(), obj.0);
        self.volumes[spot.volume].release(spot.inode);
    }

    /// What is told of a file or a directory; None exactly where none stands at the number. Its label is at or below
    /// the ceiling of its file system.
    pub fn get(&self, obj: Obj) -> Option<Inode>
        ensures told { result ≡ option_map (told_at obj.0 self.now) (at self.now.nodes obj.0) }
        ensures below { IfSome result (λ x. IsTrue (leq x.float.label x.float.ceiling)) }
    {
        let spot = spot_of(self.volumes.as_slice(), obj.0)?;
        let volume = &self.volumes[spot.volume];
        let node = volume.nodes.get(spot.inode)?;
        Some(node.told(volume.spec.ceiling, volume.blocks.len(spot.inode)))
    }

    /// What is kept of a file or a directory; None exactly where none stands at the number.
    pub fn kept(&self, obj: Obj) -> Option<&Node>
        ensures { option_copied result ≡ at self.now.nodes obj.0 }
    {
        let spot = spot_of(self.volumes.as_slice(), obj.0)?;
        self.volumes[spot.volume].nodes.get(spot.inode)
    }

    /// Sets the label, to one at or below the ceiling of the file system. All else stays.
    pub fn set_label(&mut self, obj: Obj, label: Label)
        requires lives { IsTrue (is_some (at self.old.nodes obj.0)) }
        requires below { IsTrue (leq label (ceiling_at obj.0 self.old)) }
        ensures { self.new ≡ changed obj.0 (λ x. record x { label = label }) self.old }
    {
        let node = self.node(obj);
        self.set(obj, Node { label, ..node });
    }

    /// Freezes the label, or lets it float again. All else stays.
    pub fn set_frozen(&mut self, obj: Obj, on: bool)
        requires { IsTrue (is_some (at self.old.nodes obj.0)) }
        ensures { self.new ≡ changed obj.0 (λ x. record x { frozen = on }) self.old }
    {
        let node = self.node(obj);
        self.set(obj, Node { frozen: on, ..node });
    }

    /// Sets the capabilities and the licences that it carries. All else stays.
    pub fn set_privs(&mut self, obj: Obj, cap: PrivSet, lic: PrivSet)
        requires { IsTrue (is_some (at self.old.nodes obj.0)) }
        ensures { self.new ≡ changed obj.0 (λ x. record x { cap = cap; lic = lic }) self.old }
    {
        let node = self.node(obj);
        self.set(obj, Node { cap, lic, ..node });
    }

    /// Sets the number of names that it is told to have; nobody counts them here. All else stays.
    pub fn set_links(&mut self, obj: Obj, links: u32)
        requires { IsTrue (is_some (at self.old.nodes obj.0)) }
        ensures { self.new ≡ changed obj.0 (λ x. record x { links = links }) self.old }
    {
        let node = self.node(obj);
        self.set(obj, Node { links, ..node });
    }

    /// Copies the bytes of a file from `at` on into the front of `out`, as many as there are and it holds, and answers
    /// their number; the rest of `out` stays. The cost is that of the bytes, and a step for each block between them and the nearer
    /// end of the file.
    pub fn read(&self, obj: Obj, at: u64, out: &mut [u8]) -> usize
        requires { IsTrue (is_file_at obj.0 self.now) }
        ensures count { result ≡ min (length out.old) (length (drop at (bytes_at obj.0 self.now))) }
        ensures out { out.new ≡ take result (drop at (bytes_at obj.0 self.now)) ++ drop result out.old }
    {
        let spot = spot_there(self.volumes.as_slice(), obj.0);
        self.volumes[spot.volume].blocks.read(spot.inode, at, out)
    }

    /// Whether a file may have a length, of at most 1,048,576: it needs no more blocks then than its own and the free ones of
    /// its file system together. So this tells whether a write or a cut to that length is refused. Constant time.
    pub fn has_room(&self, obj: Obj, len: u64) -> bool
        requires file { IsTrue (is_file_at obj.0 self.now) }
        requires most { len ≤ most }
        ensures { result ≡ has_space obj.0 len self.now }
    {
        let spot = spot_there(self.volumes.as_slice(), obj.0);
        self.volumes[spot.volume].blocks.has_room(spot.inode, len)
    }

    /// Writes bytes over those of a file from `at` on. Where they end past the last byte the file grows, to at most
    /// 1,048,576 bytes, and a gap before them reads as zeros. A write of no bytes changes nothing.
    ///
    /// `NoSpace`, with no change, exactly where the file would need more blocks than its own and the free ones of its file
    /// system together. The cost is that of the bytes and the gap, and a step for each block between them and the nearer end of
    /// the file.
    pub fn write(&mut self, obj: Obj, at: u64, bytes: &[u8]) -> Result<(), NoSpace>
        requires file { IsTrue (is_file_at obj.0 self.old) }
        requires most { length_after obj.0 at (length bytes.now) self.old ≤ most }
        ensures room { result ≡ (if has_space obj.0 (length_after obj.0 at (length bytes.now) self.old) self.old then Ok tt else Err (record {})) }
        ensures bytes { self.new ≡ (if has_space obj.0 (length_after obj.0 at (length bytes.now) self.old) self.old then holding obj.0 (spliced at bytes.now (bytes_at obj.0 self.old)) self.old else self.old) }
    {
        let spot = spot_there(self.volumes.as_slice(), obj.0);
        self.volumes[spot.volume]
            .blocks
            .write(spot.inode, at, bytes)
    }

    /// Sets the number of bytes of a file, at most 1,048,576. What is past it goes, and what is missing reads as zeros.
    ///
    /// `NoSpace`, with no change, exactly where the file would need more blocks than its own and the free ones of its file
    /// system together. The cost is that of the blocks taken or given back.
    pub fn cut(&mut self, obj: Obj, len: u64) -> Result<(), NoSpace>
        requires file { IsTrue (is_file_at obj.0 self.old) }
        requires most { len ≤ most }
        ensures room { result ≡ (if has_space obj.0 len self.old then Ok tt else Err (record {})) }
        ensures bytes { self.new ≡ (if has_space obj.0 len self.old then holding obj.0 (cut_to len (bytes_at obj.0 self.old)) self.old else self.old) }
    {
        let spot = spot_there(self.volumes.as_slice(), obj.0);
        self.volumes[spot.volume].blocks.cut(spot.inode, len)
    }

    /// Does nothing: its contract is the law that on the file system of an inode the blocks that are used and those that are
    /// free are all blocks that it has.
    pub fn lemma_blocks_add_up(&self, obj: Obj)
        requires { IsTrue (is_some (at self.now.nodes obj.0)) }
        ensures { (x : Node) → at self.now.nodes obj.0 ≡ Some x → blocks_of x.fs self.now.nodes self.now.bytes + free_blocks x.fs self.now ≡ (fs_at self.now.fss x.fs).blocks }
    {
        let spot = spot_there(self.volumes.as_slice(), obj.0);
        self.volumes[spot.volume].blocks.free();
    }

    /// What is kept of a number at which an inode stands.
    fn node(&self, obj: Obj) -> Node
        requires { IsTrue (is_some (at self.now.nodes obj.0)) }
        ensures node { at self.now.nodes obj.0 ≡ Some result }
        ensures below { IsTrue (leq result.label (fs_ceiling result.fs self.now)) }
    {
        let spot = spot_there(self.volumes.as_slice(), obj.0);
        self.volumes[spot.volume].nodes.node(spot.inode)
    }

    /// Puts what is kept of an inode in the place of what was, on the same file system.
    fn set(&mut self, obj: Obj, node: Node)
        requires there { option_map (λ x. x.fs) (at self.old.nodes obj.0) ≡ Some node.fs }
        requires below { IsTrue (leq node.label (fs_ceiling node.fs self.old)) }
        ensures { self.new ≡ with_node obj.0 node self.old }
    {
        let spot = spot_there(self.volumes.as_slice(), obj.0);
        self.volumes[spot.volume].nodes.set(spot.inode, node);
    }
}

/// Whether a new inode of that kind is a directory.
fn is_dir(kind: Kind) -> bool
    ensures { result ≡ is_dir_kind kind }
{
    matches!(kind, Kind::Dir)
}
