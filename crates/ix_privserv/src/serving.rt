ghost use Rattle.std.specs.Prelude.{◌≡◌, ◌≤◌, List, length};
ghost use Rattle.ix_model.specs.history.Made.{Made};
ghost use Rattle.ix_asking.specs.{Asking.{next}, Runs.{answers_of, Ends, Makes}, serving.Serveds.{end_of}};
ghost use Rattle.ix_privserv.specs.Serving.{serves};

use crate::server::PrivServer;
use ix_asking::{run, served};
use ix_model::{Buf, Fd, Pid, Sys};
use ix_policy::{Policy, Served};

/// Serves one request for privileges: the server, with this end of a pipe, grants the process that has claimed the other end what
/// it wants, where the policy allows it.
///
/// The calls that are made, at most five, are those that the server asks for as they are answered, and the answer is what comes of
/// them. It is `Full` or `NoMemory` exactly where the next call stopped; then nothing more is called. It takes no memory.
pub fn serve<S: Sys>(
    sys: &mut S,
    line: u32,
    server: Pid,
    fd: Fd,
    policy: &Policy,
    buf: &mut Buf,
) -> Served
    ensures { (more : List Made) × Makes S.seat S.made S.follows (serves policy.now (record { line = line; pid = server.0; fd = fd.0 })) sys.old sys.new more
        × (length more ≤ 5)
        × Ends S.stops S.stopped (next (serves policy.now (record { line = line; pid = server.0; fd = fd.0 })) (answers_of more)) sys.old sys.new (end_of result) }
{
    served(run(sys, &mut PrivServer::new(line, server, fd, policy), buf))
}
