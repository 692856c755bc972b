ghost use Rattle.std.specs.Prelude.{◌≡◌, ◌<◌, ◌≤◌, ◌++◌, [], true, false, length, IsTrue, IfOk, OnOk, OnErr};
ghost use Rattle.ix_model.specs.{opening.Valid.{is_valid}, history.History.{world_of}};
ghost use Rattle.ix_image.specs.{Image.{image_of}, Taken.{tree_of, tree_on}, Saving.{WritesOn}, Written.{IsBegun, Wrote, left_of, pieces_of}};

use crate::named::{count_kept, named_objects};
use crate::part::Part;
use crate::parts::{write_bytes, write_file_system, write_name, write_object, write_start};
use crate::written::Saving;
use ix_core::Core;
use ix_model::{Config, FsSpec, NoMemory};
use ix_report::Line;
use std::alloc::Global;

impl<'c> Saving<'c> {
    /// The image of a core's tree on these file systems, of which nothing was written. It takes a byte for each object.
    pub fn new(alloc: Global, fss: &'c [FsSpec], core: &'c Core) -> Result<Saving<'c>, NoMemory>
        requires { length fss.now ≤ 16 }
        ensures begun { IfOk result (λ s. IsBegun s) }
        ensures all { IfOk result (λ s. left_of s ≡ image_of (tree_on fss.now (world_of core.now))) }
    {
        core.len();
        let named = named_objects(alloc, core)?;
        let count = count_kept(core, &named);
        Ok(Saving {
            fss,
            core,
            named,
            count,
            next: Part::Start,
        })
    }

    /// Whether all was written.
    #[tactic(auto, unfolding(crate::specs::Written::left_of, crate::specs::Written::pieces_of))]
    pub fn is_written(&self) -> bool
        ensures written { result ≡ true → left_of self.now ≡ [] }
        ensures going { result ≡ false → 0 < pieces_of self.now }
    {
        match self.next {
            Part::Start => false,
            Part::FileSystem(_) => false,
            Part::Object(_) => false,
            Part::Bytes(_, _) => false,
            Part::Name(_, _, _, _) => false,
            Part::End => true,
        }
    }

    /// Writes the next piece, or nothing. After `NoMemory` nothing was written.
    pub fn write(&mut self, out: &mut Vec<u8>) -> Result<(), NoMemory>
        requires begun { IsBegun self.old }
        requires going { 0 < pieces_of self.old }
        ensures ok { OnOk result (Wrote self.old self.new out.old.items out.new.items) }
        ensures err { OnErr result (out.new.items ≡ out.old.items) }
    {
        let alloc = *out.allocator();
        let mut line = Line::begin(out);
        match self.piece(alloc, &mut line) {
            Ok(next) => {
                self.next = next;
                line.end(out, Ok(()))
            }
            Err(NoMemory) => line.end(out, Err(NoMemory)),
        }
    }

    /// Writes the next piece, and gives what comes behind it.
    fn piece(&self, alloc: Global, line: &mut Line) -> Result<Part, NoMemory>
        requires begun { IsBegun self.now }
        requires going { 0 < pieces_of self.now }
        ensures stays { line.new.before ≡ line.old.before }
        ensures text { IfOk result (λ next. WritesOn self.now.fss.now (world_of self.now.core.now) self.now.next next line.old.text line.new.text) }
    {
        self.core.len();
        match self.next {
            Part::Start => write_start(line, self.fss, self.core),
            Part::FileSystem(k) => write_file_system(line, self.fss, self.core, self.count, k),
            Part::Object(n) => write_object(line, self.core, &self.named, n),
            Part::Bytes(n, place) => write_bytes(alloc, line, self.core, n, place),
            Part::Name(n, left, name, object) => {
                write_name(line, self.core, n, left, &name, object)
            }
            Part::End => Ok(Part::End),
        }
    }
}

/// Appends the image of a core's tree. The core's config is that one. After `NoMemory` the bytes are as they were.
pub fn save(config: &Config, core: &Core, out: &mut Vec<u8>) -> Result<(), NoMemory>
    requires valid { IsTrue (is_valid config.now) }
    requires same { core.now.config ≡ config.now }
    ensures ok { OnOk result (out.new.items ≡ out.old.items ++ image_of (tree_of config.now (world_of core.now))) }
    ensures err { OnErr result (out.new.items ≡ out.old.items) }
{
    let len = out.len();
    let mut saving = Saving::new(*out.allocator(), config.fss.as_slice(), core)?;
    'pieces: while !saving.is_written() {
        if saving.write(out).is_err() {
            out.truncate(len);
            return Err(NoMemory);
        }
    }
    Ok(())
}
