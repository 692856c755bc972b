ghost use Rattle.std.specs.Prelude.{◌≡◌};
ghost use Rattle.ix_host.specs.run.{Outcome.{Outcome, status_of, text_of}, Run.{Ends}};

use crate::status::Status;
use crate::streams::stream::write_all;
use ix_io::{Failed, Sink};

/// Writes the text of an outcome with this status.
pub fn tell<K: Sink>(sink: &mut K, text: &[u8], status: Status) -> Status
    ensures { (o : Outcome) → text_of o ≡ text.now → status_of o ≡ status → Ends o result (K.taken sink.old) (K.taken sink.new) (K.finished sink.new)
        (K.faults sink.old) (K.faults sink.new) }
{
    match write_all(sink, text) {
        Ok(()) => status,
        Err(Failed) => Status::WriteFault,
    }
}
