ghost use Rattle.std.specs.Prelude.{◌≡◌, ◌<◌, ◌≤◌, false, length, List};
ghost use Rattle.ix_policy.specs.declared.rule.Rule.{Rule};
ghost use Rattle.ix_asking.specs.{Asking.{first, heard, IsDue}, serving.{Serving.{Server, if_refused, on_claim, tell}, Telling.{telling_asks, telling_most}}};
ghost use Rattle.ix_privserv.specs.{Places.{asks_at, most_at}, Serving.{on_message}};

use crate::message::{Wants, wanted};
use ix_asking::{Asks, Outcome, Step, Telling, bad_at, decided, tell, untold};
use ix_label::Label;
use ix_model::{Call, Fd, Pid, PrivSet, Reply};
use ix_policy::{Policy, Request};

/// Where the privilege server stands: the call that it makes next, with what it knows by then.
#[derive(Clone, Copy)]
enum At {
    Claim,
    Read {
        client: Pid,
        label: Label,
    },
    Grant {
        client: Pid,
        want: PrivSet,
        rule: u32,
    },
    Tell(Telling),
}

/// The privilege server, while it serves one request: what it asks for is there one call at a time.
#[derive(Clone, Copy)]
pub struct PrivServer<'p> {
    line: u32,
    server: Pid,
    fd: Fd,
    policy: &'p Policy,
    at: At,
}

/// After the claim.
fn on_claim(reply: &Reply) -> At
    ensures asks { (rules : List Rule) (s : Server) → asks_at rules s result ≡ on_claim s (on_message rules s) reply.now }
    ensures fewer { most_at result < 5 }
{
    match reply {
        Reply::No(why) => At::Tell(untold(Outcome::Refused { why: *why, step: 1 })),
        Reply::Whole { pid, label, .. } => At::Read {
            client: *pid,
            label: *label,
        },
        _ => At::Tell(untold(Outcome::NotPrivate)),
    }
}

/// After the message.
fn on_message(policy: &Policy, client: Pid, label: Label, message: &[u8]) -> At
    requires { length message.now ≤ 4096 }
    ensures asks { (s : Server) → asks_at policy.now s result ≡ on_message policy.now s client label message.now }
    ensures fewer { most_at result < 4 }
{
    let Some(want) = wanted(message) else {
        return At::Tell(tell(Outcome::BadRequest {
            at: bad_at::<Wants>(message),
            told: false,
        }));
    };
    let verdict = decided(policy, &Request::Grant { label, want });
    if verdict.allow {
        At::Grant {
            client,
            want,
            rule: verdict.rule,
        }
    } else {
        At::Tell(tell(Outcome::Denied {
            rule: verdict.rule,
            told: false,
        }))
    }
}

/// After the grant.
fn on_grant(client: Pid, rule: u32, reply: &Reply) -> Telling
    ensures asks { (s : Server) → telling_asks s result ≡ if_refused reply.now (λ why. tell s (Outcome.Refused why 4)) (tell s (Outcome.Granted rule client false)) }
    ensures most { telling_most result ≡ 2 }
{
    match reply {
        Reply::No(why) => tell(Outcome::Refused { why: *why, step: 4 }),
        _ => tell(Outcome::Granted {
            rule,
            who: client,
            told: false,
        }),
    }
}

impl At {
    /// Where the server stands once the call that stands next is answered.
    fn after(&self, policy: &Policy, reply: &Reply, bytes: &[u8]) -> At
        requires { length bytes.now ≤ 4096 }
        ensures asks { (s : Server) → asks_at policy.now s result ≡ heard (asks_at policy.now s self.now) (record { reply = reply.now; bytes = bytes.now }) }
        ensures fewer { (s : Server) → IsDue (first (asks_at policy.now s self.now)) → most_at result < most_at self.now }
    {
        match self {
            At::Claim => on_claim(reply),
            At::Read { client, label } => match reply {
                Reply::No(why) => At::Tell(untold(Outcome::Refused { why: *why, step: 2 })),
                _ => on_message(policy, *client, *label, bytes),
            },
            At::Grant { client, rule, .. } => At::Tell(on_grant(*client, *rule, reply)),
            At::Tell(telling) => At::Tell(telling.heard(reply)),
        }
    }
}

impl<'p> PrivServer<'p> {
    /// The server with this end of a pipe, in that line, before its first call.
    pub fn new(line: u32, server: Pid, fd: Fd, policy: &'p Policy) -> PrivServer<'p>
        ensures { result ≡ record { line = line; server = server; fd = fd; policy = policy.entry; at = At.Claim } }
    {
        PrivServer {
            line,
            server,
            fd,
            policy,
            at: At::Claim,
        }
    }
}

impl Asks for PrivServer<'_> {
    ghost use Rattle.ix_asking.specs.declared.serving.outcome.Outcome as outcome_of;

    type Came = Outcome;

    ghost End = { outcome_of.Outcome };

    ghost came = { λ outcome. outcome };

    ghost Kept = { Unit {0} };

    ghost kept = { λ server. tt };

    ghost asking = { λ m. asks_at m.policy.now (record { line = m.line; pid = m.server.0; fd = m.fd.0 }) m.at };

    ghost most = { λ m. most_at m.at };

    fn next(&self) -> Step<'_, Outcome> {
        let fd = self.fd;
        let call = match &self.at {
            At::Claim => Call::Pex { fd },
            At::Read { .. } => Call::ReadFd { fd, count: 64 },
            At::Grant { client, want, .. } => Call::GrantLic {
                pid: *client,
                set: *want,
            },
            At::Tell(telling) => return telling.next(self.line, self.server, fd),
        };
        Step::Call {
            line: self.line,
            pid: self.server,
            call,
        }
    }

    fn hear(&mut self, reply: &Reply, bytes: &[u8]) {
        self.at = self.at.after(self.policy, reply, bytes);
    }
}
