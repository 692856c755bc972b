ghost use Rattle.std.specs.Prelude.{◌≡◌, ◌++◌, [], IsTrue, IfOk, OnErr, OnOk};
ghost use Rattle.ix_model.specs.{history.{Calls.{event_of}, Systems.{FullFor}}, opening.Valid.{is_valid}};
ghost use Rattle.ix_core.specs.{Stepping.{MakesNext, StepsAs}, Stops.{StopsWhereFull}};
ghost use Rattle.ix_flow.specs.{Following.{lines_given}, Lines.{end_line}, Tracking.{counts_of}};

use crate::tracks::Tracks;
use ix_core::Core;
use ix_model::{Answer, Buf, Config, Entry, NoMemory};
use std::alloc::Global;
use std::marker::Model;

/// A core of its own that makes entries, and says of each read where its bytes came from.
///
/// Contracts see the core's config and history. Once it had no memory for the lines of an entry it makes no other.
#[derive(Drop)]
pub struct Flow {
    core: Core,
    tracks: Tracks,
    /// There was no memory, and the tracks don't stand for the core's history.
    failed: bool,
}

impl Model for Flow {
    ghost use Rattle.std.specs.{Prelude.{◌≡◌, false}, Coded.{codes}};
    ghost use Rattle.ix_label.specs.contracts.label.Label as label_type;
    ghost use Rattle.ix_model.specs.history.History.{History};
    ghost use Rattle.ix_flow.specs.Tracking.{AreTracks};

    ghost Value = { History };

    ghost coded = { Prim.hlevel (codes, label_type.the_row.coded) };

    ghost view = { λ f. f.core };

    ghost invariant = { λ f. f.failed ≡ false → AreTracks f.tracks f.core };
}

impl Flow {
    /// One without entries, of a config that it asks to be valid. `NoMemory` where there was none for the core, or for where the
    /// bytes of its files come from.
    pub fn new(alloc: Global, config: Config) -> Result<Flow, NoMemory>
        requires { IsTrue (is_valid config) }
        ensures { IfOk result (λ f. f ≡ record { config = config; events = [] }) }
    {
        let core = Core::boot(alloc, config)?;
        let tracks = Tracks::new(alloc, &core)?;
        Ok(Flow {
            core,
            tracks,
            failed: false,
        })
    }

    /// Makes an entry, as a core makes the call, and writes its lines behind the text. What a core answers is the answer; a full
    /// journal alone stops the call, and has no lines.
    ///
    /// `NoMemory` comes where there is none for the lines; the text is then as before, and each later step and end is answered so.
    pub fn step(
        &mut self,
        entry: &Entry<'_>,
        buf: &mut Buf,
        out: &mut Vec<u8>,
    ) -> Result<Answer, NoMemory>
        ensures step { IfOk result (λ a. StepsAs a self.old self.new (event_of entry.now) buf.old buf.new) }
        ensures next { IfOk result (λ a. MakesNext a self.old self.new (event_of entry.now) buf.new) }
        ensures full { IfOk result (λ a. FullFor (event_of entry.now).op a) }
        ensures stops { IfOk result (λ a. StopsWhereFull a self.new) }
        ensures lines { IfOk result (λ a. out.new.items ≡ out.old.items ++ lines_given a self.old (event_of entry.now)) }
        ensures err { OnErr result (out.new.items ≡ out.old.items) }
    {
        if self.failed {
            return Err(NoMemory);
        }
        let (core, tracks) = (&mut self.core, &mut self.tracks);
        let answer = core.call(entry.seat, entry.line, entry.pid, &entry.call, buf);
        if let Answer::Given(reply) = &answer {
            let len = out.len();
            let followed = tracks.follow(core, entry.pid, &entry.call, reply, out);
            if followed.is_err() {
                out.truncate(len);
                self.failed = true;
                return Err(NoMemory);
            }
        }
        Ok(answer)
    }

    /// Writes the last line behind the text: how many entries gave bytes, and how many lines there are.
    ///
    /// After `NoMemory` the text is as before.
    pub fn end(&self, out: &mut Vec<u8>) -> Result<(), NoMemory>
        ensures end { OnOk result (out.new.items ≡ out.old.items ++ end_line (counts_of self.now)) }
        ensures err { OnErr result (out.new.items ≡ out.old.items) }
    {
        if self.failed {
            return Err(NoMemory);
        }
        let len = out.len();
        let written = self.tracks.end(out);
        if written.is_err() {
            out.truncate(len);
        }
        written
    }
}
