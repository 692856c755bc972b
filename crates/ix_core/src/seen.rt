ghost use Rattle.std.specs.Prelude.{◌≡◌, ◌<◌};
ghost use Rattle.ix_model.specs.history.{Seats.{made_by}, Shown.{AreShown}, Systems.{bytes_in}};
ghost use Rattle.ix_core.specs.Stops.{FilledUp};

use crate::keeper::Core;
use crate::stops::Stops;
use crate::witness::Witness;
use ix_model::{Answer, Buf, Call, Pid, Reply, Sys};

/// What makes calls on a core as one seat, on one thread, before a witness, which sees each entry as it is made. It borrows both.
///
/// It means the entries of its seat in the core's history, each with the reply and the bytes that the history's run gives. A
/// full journal alone stops its calls; the witness sees nothing of these.
#[derive(Drop)]
pub struct SeenSys<'a, W: Witness> {
    core: &'a mut Core,
    seat: u32,
    witness: &'a mut W,
    stops: Stops,
    ghost last: { 0 < stops.count → FilledUp stops.used stops.cap core.now },
}

impl<'a, W: Witness> SeenSys<'a, W> {
    /// A seat's system over a core, before a witness. It has the entries that the seat has made there, and no stops.
    pub fn new(core: &'a mut Core, seat: u32, witness: &'a mut W) -> SeenSys<'a, W>
        ensures core { (result.core.ghost_name ≡ core.entry.ghost_name) × (result.core.now ≡ core.old) }
        ensures witness { (result.witness.ghost_name ≡ witness.entry.ghost_name) × (result.witness.now ≡ witness.old) }
        ensures seat { result.seat ≡ seat }
        ensures fresh { result.stops.count ≡ 0 }
    {
        SeenSys {
            core,
            seat,
            witness,
            stops: Stops::none(),
        }
    }
}

impl<W: Witness> Sys for SeenSys<'_, W> {
    ghost use Rattle.std.{specs.Prelude.{refl}, proofs.Common.{◌∙◌}};
    ghost use Rattle.ix_model.specs.declared.reply.Answer.TheVariants.{JournalFull};
    ghost use Rattle.ix_core.specs.Seen.{GoesSeen, goes_seen_not, goes_seen_further};

    ghost seat = { λ s. s.seat };

    ghost made = { λ s. made_by s.seat s.core.now };

    ghost stops = { λ s. s.stops.count };

    ghost stopped = { λ s. JournalFull s.stops.used s.stops.need s.stops.cap };

    ghost follows = { λ s t. (t.core.ghost_name ≡ s.core.ghost_name) × (t.witness.ghost_name ≡ s.witness.ghost_name) × (t.seat ≡ s.seat)
        × GoesSeen W.knows s.seat s.core.now s.witness.now t.core.now t.witness.now };

    ghost reflexive = { λ s. (refl, refl, refl, goes_seen_not W.knows s.seat s.core.now s.witness.now) };

    ghost transitive = { λ s t u p q. (
      q.0 ∙ p.0,
      q.1 ∙ p.1,
      q.2 ∙ p.2,
      goes_seen_further W.knows s.seat t.seat s.core.now s.witness.now t.core.now t.witness.now u.core.now u.witness.now p.2 p.3 q.3,
    ) };

    fn call(&mut self, line: u32, pid: Pid, call: &Call<'_>, buf: &mut Buf) -> Answer {
        let answer = self.core.call(self.seat, line, pid, call, buf);
        match &answer {
            Answer::Given(reply) => {
                let (core, seat, bytes) = (&*self.core, self.seat, read_by(reply, buf));
                self.witness.see(core, line, pid, seat, call, reply, bytes);
            }
            Answer::JournalFull { used, need, cap } => self.stops.note(*used, *need, *cap),
            Answer::NoMemory => {}
        }
        answer
    }
}

/// The bytes that a reply says were read, at the front of the buffer.
pub fn read_by<'b>(reply: &Reply, buf: &'b Buf) -> &'b [u8]
    requires { AreShown reply.now (bytes_in reply.now buf.now) }
    ensures { result.now ≡ bytes_in reply.now buf.now }
{
    match reply {
        Reply::Bytes(count) => &buf[..*count as usize],
        _ => &[],
    }
}
