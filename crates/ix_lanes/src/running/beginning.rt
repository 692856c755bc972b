ghost use Rattle.std.{specs.Prelude.{◌≡◌, ◌≤◌, List, ℕ, false, true}, proofs.Common.{option_map}};
ghost use Rattle.ix_script.specs.lines.{Roles.{role_of}, Before.{is_phase}};
ghost use Rattle.ix_lanes.specs.{asking.{LineAsks.{asks_several, line_asks}, Places.{standing}}, running.Left.{Holds, IsPending, is_over, part_left, part_most}};

use crate::asking::bindings::Bindings;
use crate::asking::calls::put_written;
use crate::asking::places::Places;
use crate::running::part::Part;
use ix_asking::Copying;
use ix_model::Buf;
use ix_policy::Policy;
use ix_privserv::PrivServer;
use ix_script::{Line, Role};
use ix_sessserv::SessServer;

/// Begins a line that asks for several calls. Such lines are few: what they need stands apart, so that `begin` is short.
#[inline(never)]
fn begin_several<'a>(
    policy: Option<&'a Policy>,
    header: &Bindings<u32>,
    places: &Places,
    number: u32,
    line: &Line<'_>,
    copying: &mut Copying,
    begun: &mut Part<'a>,
)
    requires several { asks_several line.now ≡ true }
    ensures asks { part_left header.now (standing places.now) number line.now copying.new begun.new ≡ line_asks (option_map (λ p. p.now) policy.entry) header.now (standing places.now) number line.now }
    ensures pending { IsPending begun.new (part_left header.now (standing places.now) number line.now copying.new begun.new) }
    ensures holds { (buf : List ℕ) → Holds line.now buf begun.new }
    ensures most { part_most copying.new begun.new ≤ 9 }
    ensures apart { is_over begun.new ≡ false → is_phase line.now ≡ false }
{
    match line {
        Line::Copy {
            proc,
            from,
            to,
            count,
        } => {
            let (pid, from, to) = (places.pid(header, proc), places.fd(from), places.fd(to));
            copying.begin(number, pid, from, to, *count);
            *begun = Part::Copy;
        }
        Line::Priv { proc, fd } => {
            let Some(policy) = policy else {
                *begun = Part::Over;
                return;
            };
            let (server, fd) = (places.pid(header, proc), places.fd(fd));
            *begun = Part::Priv(PrivServer::new(number, server, fd, policy));
        }
        Line::Login { proc, fd, hand, .. } => {
            let Some(policy) = policy else {
                *begun = Part::Over;
                return;
            };
            let (server, fd, hand) = (places.pid(header, proc), places.fd(fd), places.fd(hand));
            *begun = Part::Login(SessServer::new(number, server, fd, hand, policy));
        }
        _ => unreachable!(),
    }
}

/// Begins a line of a lane: what it asks for. What it writes is put into the buffer. A part is wide: it is made where it lies.
#[inline(always)]
pub fn begin<'a>(
    policy: Option<&'a Policy>,
    header: &Bindings<u32>,
    places: &Places,
    number: u32,
    role: Role,
    line: &Line<'a>,
    written: &mut Buf,
    copying: &mut Copying,
    begun: &mut Part<'a>,
)
    requires role { role ≡ role_of line.now }
    ensures asks { part_left header.now (standing places.now) number line.now copying.new begun.new ≡ line_asks (option_map (λ p. p.now) policy.entry) header.now (standing places.now) number line.now }
    ensures pending { IsPending begun.new (part_left header.now (standing places.now) number line.now copying.new begun.new) }
    ensures holds { Holds line.now written.new begun.new }
    ensures most { part_most copying.new begun.new ≤ 9 }
    ensures apart { is_over begun.new ≡ false → is_phase line.now ≡ false }
{
    match line {
        Line::Copy { .. } | Line::Priv { .. } | Line::Login { .. } => begin_several(
            policy, header, places, number, line, copying, begun,
        ),
        _ => match role {
            Role::Command | Role::Naming => *begun = Part::Command(put_written(line, written)),
            _ => *begun = Part::Over,
        },
    }
}
