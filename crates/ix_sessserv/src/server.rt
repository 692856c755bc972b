ghost use Rattle.std.specs.Prelude.{◌≡◌, ◌<◌, ◌≤◌, false, length, List};
ghost use Rattle.ix_policy.specs.declared.rule.Rule.{Rule};
ghost use Rattle.ix_model.specs.declared.ids.Fd.{Fd};
ghost use Rattle.ix_asking.specs.{Asking.{first, heard, IsDue}, serving.Serving.{Server, if_refused, on_claim, tell}};
ghost use Rattle.ix_sessserv.specs.Places.{asks_at, most_at};
ghost use Rattle.ix_sessserv.specs.Serving.{all_five, child_in, clear_of, drop_all, give_up, grant_if_any, on_message, privs_of, set_ceiling, succeed};

use crate::message::{LogsIn, user_in};
use bitflags::Flags;
use ix_asking::{Asks, Outcome, Step, Telling, bad_at, decided, tell, untold};
use ix_label::Label;
use ix_model::{Call, Fd, Keep, Pid, PrivSet, Refusal, Reply};
use ix_policy::{Policy, Request};

/// Where the session server stands: the call that it makes next, with what it knows by then.
#[derive(Clone, Copy)]
enum At {
    Claim,
    Read { client: Pid, label: Label },
    Fork { rule: u32 },
    Drop { child: Pid, rule: u32 },
    Ceiling { child: Pid, rule: u32 },
    Grant { child: Pid, rule: u32 },
    GiveUp { child: Pid, why: Refusal, step: u8 },
    Tell(Telling),
}

/// The session server, while it serves one request: what it asks for is there one call at a time.
#[derive(Clone, Copy)]
pub struct SessServer<'p> {
    line: u32,
    server: Pid,
    fd: Fd,
    /// The descriptor that the child gets.
    hand: Fd,
    policy: &'p Policy,
    at: At,
}

/// All five privileges.
#[tactic(auto, unfolding(bitflags::specs::Sets::known_from))]
fn all_five() -> PrivSet
    ensures { result ≡ all_five }
{
    PrivSet::all()
}

/// The child that a fork's reply says; pid 0, which never lives, where it says none.
fn child_in(reply: &Reply) -> Pid
    ensures { result ≡ child_in reply.now }
{
    match reply {
        Reply::Number(n) => {
            if *n > 4294967295 {
                Pid(0)
            } else {
                Pid(*n as u32)
            }
        }
        _ => Pid(0),
    }
}

/// The label of a rule.
fn clear_of(policy: &Policy, rule: u32) -> Label
    ensures { result ≡ clear_of policy.now rule }
{
    match policy.clear(rule) {
        Some(label) => label,
        None => Label::bottom(),
    }
}

/// The privileges of a rule.
fn privs_of(policy: &Policy, rule: u32) -> PrivSet
    ensures { result ≡ privs_of policy.now rule }
{
    match policy.privs(rule) {
        Some(set) => set,
        None => PrivSet::empty(),
    }
}

/// After the claim.
fn on_claim(reply: &Reply) -> At
    ensures asks { (rules : List Rule) (s : Server) (hand : Fd) → asks_at rules s hand result ≡ on_claim s (on_message rules s hand) reply.now }
    ensures fewer { most_at result < 9 }
{
    match reply {
        Reply::No(why) => At::Tell(untold(Outcome::Refused { why: *why, step: 1 })),
        Reply::Whole { pid, label, .. } => At::Read {
            client: *pid,
            label: *label,
        },
        _ => At::Tell(untold(Outcome::NotPrivate)),
    }
}

/// After the message.
fn on_message(policy: &Policy, client: Pid, label: Label, message: &[u8]) -> At
    requires { length message.now ≤ 4096 }
    ensures asks { (s : Server) (hand : Fd) → asks_at policy.now s hand result ≡ on_message policy.now s hand client label message.now }
    ensures fewer { most_at result < 8 }
{
    let Some(user) = user_in(message) else {
        return At::Tell(tell(Outcome::BadRequest {
            at: bad_at::<LogsIn>(message),
            told: false,
        }));
    };
    let verdict = decided(policy, &Request::Session { user, label });
    if verdict.allow {
        At::Fork { rule: verdict.rule }
    } else {
        At::Tell(tell(Outcome::Denied {
            rule: verdict.rule,
            told: false,
        }))
    }
}

/// After the fork.
fn on_fork(rule: u32, reply: &Reply) -> At
    ensures asks { (rules : List Rule) (s : Server) (hand : Fd) → asks_at rules s hand result
        ≡ if_refused reply.now (λ why. tell s (Outcome.Refused why 4)) (drop_all rules s (child_in reply.now) rule) }
    ensures fewer { most_at result < 7 }
{
    match reply {
        Reply::No(why) => At::Tell(tell(Outcome::Refused { why: *why, step: 4 })),
        _ => At::Drop {
            child: child_in(reply),
            rule,
        },
    }
}

/// After the child dropped its licences.
fn on_drop(child: Pid, rule: u32, reply: &Reply) -> At
    ensures asks { (rules : List Rule) (s : Server) (hand : Fd) → asks_at rules s hand result
        ≡ if_refused reply.now (λ why. give_up s child why 5) (set_ceiling rules s child rule) }
    ensures fewer { most_at result < 6 }
{
    match reply {
        Reply::No(why) => At::GiveUp {
            child,
            why: *why,
            step: 5,
        },
        _ => At::Ceiling { child, rule },
    }
}

/// After the child's ceiling.
fn on_ceiling(policy: &Policy, child: Pid, rule: u32, reply: &Reply) -> At
    ensures asks { (s : Server) (hand : Fd) → asks_at policy.now s hand result
        ≡ if_refused reply.now (λ why. give_up s child why 6) (grant_if_any policy.now s child rule) }
    ensures fewer { most_at result < 5 }
{
    if let Reply::No(why) = reply {
        return At::GiveUp {
            child,
            why: *why,
            step: 6,
        };
    }
    if privs_of(policy, rule).is_empty() {
        At::Tell(tell(Outcome::Granted {
            rule,
            who: child,
            told: false,
        }))
    } else {
        At::Grant { child, rule }
    }
}

/// After the grant.
fn on_grant(child: Pid, rule: u32, reply: &Reply) -> At
    ensures asks { (rules : List Rule) (s : Server) (hand : Fd) → asks_at rules s hand result
        ≡ if_refused reply.now (λ why. give_up s child why 7) (succeed s child rule) }
    ensures fewer { most_at result < 4 }
{
    match reply {
        Reply::No(why) => At::GiveUp {
            child,
            why: *why,
            step: 7,
        },
        _ => At::Tell(tell(Outcome::Granted {
            rule,
            who: child,
            told: false,
        })),
    }
}

impl At {
    /// Where the server stands once the call that stands next is answered.
    fn after(&self, policy: &Policy, reply: &Reply, bytes: &[u8]) -> At
        requires { length bytes.now ≤ 4096 }
        ensures asks { (s : Server) (hand : Fd) → asks_at policy.now s hand result
            ≡ heard (asks_at policy.now s hand self.now) (record { reply = reply.now; bytes = bytes.now }) }
        ensures fewer { (s : Server) (hand : Fd) → IsDue (first (asks_at policy.now s hand self.now)) → most_at result < most_at self.now }
    {
        match self {
            At::Claim => on_claim(reply),
            At::Read { client, label } => match reply {
                Reply::No(why) => At::Tell(untold(Outcome::Refused { why: *why, step: 2 })),
                _ => on_message(policy, *client, *label, bytes),
            },
            At::Fork { rule } => on_fork(*rule, reply),
            At::Drop { child, rule } => on_drop(*child, *rule, reply),
            At::Ceiling { child, rule } => on_ceiling(policy, *child, *rule, reply),
            At::Grant { child, rule } => on_grant(*child, *rule, reply),
            At::GiveUp { why, step, .. } => At::Tell(tell(Outcome::Refused {
                why: *why,
                step: *step,
            })),
            At::Tell(telling) => At::Tell(telling.heard(reply)),
        }
    }
}

impl<'p> SessServer<'p> {
    /// The server with this end of a pipe, in that line, before its first call. A child that it makes gets the descriptor `hand` alone.
    pub fn new(line: u32, server: Pid, fd: Fd, hand: Fd, policy: &'p Policy) -> SessServer<'p>
        ensures { result ≡ record { line = line; server = server; fd = fd; hand = hand; policy = policy.entry; at = At.Claim } }
    {
        SessServer {
            line,
            server,
            fd,
            hand,
            policy,
            at: At::Claim,
        }
    }
}

impl Asks for SessServer<'_> {
    ghost use Rattle.ix_asking.specs.declared.serving.outcome.Outcome as outcome_of;

    type Came = Outcome;

    ghost End = { outcome_of.Outcome };

    ghost came = { λ outcome. outcome };

    ghost Kept = { Unit {0} };

    ghost kept = { λ server. tt };

    ghost asking = { λ m. asks_at m.policy.now (record { line = m.line; pid = m.server.0; fd = m.fd.0 }) m.hand m.at };

    ghost most = { λ m. most_at m.at };

    fn next(&self) -> Step<'_, Outcome> {
        let (server, fd) = (self.server, self.fd);
        let (pid, call) = match &self.at {
            At::Claim => (server, Call::Pex { fd }),
            At::Read { .. } => (server, Call::ReadFd { fd, count: 64 }),
            At::Fork { .. } => (
                server,
                Call::Fork {
                    keep: Keep::One(self.hand),
                },
            ),
            At::Drop { child, .. } => (*child, Call::DropLic { set: all_five() }),
            At::Ceiling { child, rule } => (
                server,
                Call::SetCeiling {
                    pid: *child,
                    label: clear_of(self.policy, *rule),
                },
            ),
            At::Grant { child, rule } => (
                server,
                Call::GrantLic {
                    pid: *child,
                    set: privs_of(self.policy, *rule),
                },
            ),
            At::GiveUp { child, .. } => (*child, Call::Exit { status: 255 }),
            At::Tell(telling) => return telling.next(self.line, server, fd),
        };
        Step::Call {
            line: self.line,
            pid,
            call,
        }
    }

    fn hear(&mut self, reply: &Reply, bytes: &[u8]) {
        self.at = self.at.after(self.policy, reply, bytes);
    }
}
