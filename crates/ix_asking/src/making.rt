ghost use Rattle.std.specs.Prelude.{◌≡◌, ◌≤◌, ◌+◌, List, length};
ghost use Rattle.ix_model.specs.history.Made.{Made};
ghost use Rattle.ix_asking.specs.{Asking.{all_heard, came_as, first, next}, Runs.{answers_of, count_in, Ends, Makes, Turn}};

use crate::asks::{Asks, Step};
use crate::stop::{Stop, given};
use ix_model::{Buf, Reply, Sys};

/// How many bytes a reply says were read.
pub fn count_in(reply: &Reply) -> usize
    ensures { result ≡ count_in reply.now }
{
    match reply {
        Reply::Bytes(k) => *k as usize,
        _ => 0,
    }
}

/// Makes the call that stands next on the system of its seat, and lets what asked for it hear the answer: `Ok(None)`. Where none
/// stands next it is `Ok(Some(..))` of what came of all, and nothing is called. `Err` is the stop of a call that wasn't made, since the
/// journal has no room for it or there is no memory: both are as they were then, but for the count of stops.
pub fn make_next<S: Sys, A: Asks>(
    sys: &mut S,
    asks: &mut A,
    buf: &mut Buf,
) -> Result<Option<A::Came>, Stop>
    ensures { (more : List Made) × Makes S.seat S.made S.follows (A.asking asks.old) sys.old sys.new more
        × (A.asking asks.new ≡ all_heard (A.asking asks.old) (answers_of more))
        × (length more + A.most asks.new ≤ A.most asks.old) × (A.kept asks.new ≡ A.kept asks.old)
        × Turn S.stops S.stopped (came_as A.came (first (A.asking asks.old))) sys.old sys.new more result }
{
    let answer = match asks.next() {
        Step::Came(came) => return Ok(Some(came)),
        Step::Call { line, pid, call } => sys.call(line, pid, &call, buf),
    };
    match given(&answer) {
        Ok(reply) => {
            asks.hear(reply, &buf[..count_in(reply)]);
            Ok(None)
        }
        Err(stop) => Err(stop),
    }
}

/// Makes the calls that are asked for, each once the one before it is answered, until nothing more is asked for, and answers what
/// came of all. `Err` is the stop of the first call that wasn't made: those before it stay made, and no more is called.
pub fn run<S: Sys, A: Asks>(sys: &mut S, asks: &mut A, buf: &mut Buf) -> Result<A::Came, Stop>
    ensures { (more : List Made) × Makes S.seat S.made S.follows (A.asking asks.old) sys.old sys.new more
        × (A.asking asks.new ≡ all_heard (A.asking asks.old) (answers_of more))
        × (length more + A.most asks.new ≤ A.most asks.old) × (A.kept asks.new ≡ A.kept asks.old)
        × Ends S.stops S.stopped (came_as A.came (next (A.asking asks.old) (answers_of more))) sys.old sys.new result }
{
    'turns: loop {
        match make_next(sys, asks, buf)? {
            Some(came) => return Ok(came),
            None => {}
        }
    }
}
