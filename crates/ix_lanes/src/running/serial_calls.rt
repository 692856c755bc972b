ghost use Rattle.std.specs.Prelude.{◌≡◌, ◌+◌, ◌<◌, ◌≤◌, ℕ, true, map, take, length, replicate, IfOk, None, if◌then◌else◌};
ghost use Rattle.std.proofs.Common.{option_map};
ghost use Rattle.ix_script.specs.{lines.{Before.{lanes_of}, Roles.{role_of}}, scripts.Schedule.{seat_after}};
ghost use Rattle.ix_model.specs.history.Calls.{event_of};
ghost use Rattle.ix_asking.specs.Asking.{first};
ghost use Rattle.ix_lanes.specs.{asking.{Asked.{made_by, no_names}, Places.{standing}, Ruled.{rules_told}}, histories.{Indexed.{line_in}, Serial.{first_names, header_of}}};
ghost use Rattle.ix_lanes.specs.running.{Left.{part_most}, Phases.{seat_at}, Serially.{ArePlaced, IsWithin, LeavesLines, entry_next, role_begins}};
ghost use Rattle.ix_lanes.specs.declared.running.part.Part.TheVariants as part;

use crate::asking::bindings::Bindings;
use crate::asking::caller::Caller;
use crate::asking::calls::{bind, call_of};
use crate::asking::handed::Handed;
use crate::asking::places::Places;
use crate::lanes::header_of;
use crate::lines::{line_at, line_kept, role_at};
use crate::running::beginning::begin;
use crate::running::hearing::heard;
use crate::running::part::Part;
use ix_asking::{Asks, Copying, Step};
use ix_model::{Buf, Call, Entry, NoMemory, Reply};
use ix_policy::Policy;
use ix_script::{Line, Role, Script};
use std::alloc::Global;
use std::marker::Model;

/// What the names of so many lanes stand for: none yet.
fn empty_places(alloc: Global, lanes: u32) -> Result<Vec<Places>, NoMemory>
    ensures { IfOk result (λ places. map standing places.items ≡ replicate lanes no_names) }
{
    let mut all = Vec::new(alloc);
    for _ in 0..lanes {
        if all.push(Places::new(alloc)).is_err() {
            return Err(NoMemory);
        }
    }
    Ok(all)
}

/// What the names of each lane of a script stand for, by seats: none yet, but each has its place. All lines are gone through once, and of
/// them only those that may give names are made.
fn all_places(alloc: Global, script: &Script<'_>) -> Result<Vec<Places>, NoMemory>
    ensures placed { IfOk result (λ places. ArePlaced script.now places.items) }
    ensures names { IfOk result (λ places. map standing places.items ≡ first_names script.now) }
{
    let mut all = empty_places(alloc, script.lanes())?;
    // The number of the line that begins the part in which the next line stands; 0 before the first.
    let mut begun = 0;
    for index in 0..script.len() {
        match role_at(script, index) {
            Role::Phase | Role::Lane => begun = index + 1,
            Role::Naming | Role::Server => {
                if let Some(seat) = script.seat(begun) {
                    all[seat as usize].add(&line_at(script, index))?;
                }
            }
            _ => {}
        }
    }
    Ok(all)
}

/// Where a serial run stands in its script.
#[derive(Drop)]
struct Place<'a> {
    /// The index of the line in which it stands, or how many lines there are.
    at: u32,
    /// The seat of the lane in which that line stands.
    seat: Option<u32>,
    /// The line itself, where it stands in one.
    line: Option<Line<'a>>,
}

/// The seat of the lane in which a line may ask for calls: one that begins a phase, or a lane's part of it, asks for none.
fn seat_asking(seat: Option<u32>, role: Role) -> Option<u32>
    ensures { result ≡ (if role_begins role then None else seat) }
{
    match role {
        Role::Phase | Role::Lane => None,
        _ => seat,
    }
}

impl<'a> Place<'a> {
    /// Goes past the line.
    #[inline(always)]
    fn pass(&mut self, script: &Script<'_>, role: Role)
        requires role { role ≡ role_of (line_in script.now self.old.at) }
        requires within { self.old.at < length script.now }
        ensures seat { self.new.seat ≡ seat_after (lanes_of script.now) self.old.seat (line_in script.now self.old.at) }
        ensures at { self.new.at ≡ self.old.at + 1 }
        ensures line { self.new.line ≡ self.old.line }
    {
        let _count = script.len();
        match role {
            Role::Phase => self.seat = None,
            Role::Lane => self.seat = script.seat(self.at + 1),
            _ => {}
        }
        self.at += 1;
    }

    /// Goes past a line that begins neither a phase nor a lane's part of one.
    #[inline(always)]
    fn leave(&mut self, script: &Script<'_>)
        requires within { self.old.at < length script.now }
        ensures seat { self.new.seat ≡ self.old.seat }
        ensures at { self.new.at ≡ self.old.at + 1 }
    {
        let _count = script.len();
        self.at += 1;
    }

    /// Goes on to the next line that asks for a call, whichever lane it is of, and begins it. Lines that ask for none are done on the way,
    /// and those that begin a phase or a lane's part of it aren't made.
    #[inline(always)]
    fn find(
        &mut self,
        script: &'a Script<'a>,
        policy: Option<&'a Policy>,
        header: &Bindings<u32>,
        places: &mut [Places],
        written: &mut Buf,
        copying: &mut Copying,
        begun: &mut Part<'a>,
    )
        requires header { header.now ≡ header_of script.now }
        requires policy { option_map (λ p. p.now) policy ≡ rules_told script.now }
        requires within { self.old.at ≤ length script.now }
        requires seat { self.old.seat ≡ seat_at script.now (take self.old.at script.now) }
        requires places { ArePlaced script.now places.old }
        ensures left { LeavesLines script.now places.old self.old.seat self.old.at
            (record { script = script.now; names = map standing places.new; at = self.new.at; seat = self.new.seat; copying = copying.new; part = begun.new }) }
        ensures within { IsWithin script.now places.new self.new.at self.new.seat self.new.line written.new copying.new begun.new }
        ensures places { ArePlaced script.now places.new }
        ensures later { self.old.at ≤ self.new.at }
        ensures most { part_most copying.new begun.new ≤ 9 }
    {
        'lines: while self.at < script.len() {
            let role = role_at(script, self.at);
            if let Some(seat) = seat_asking(self.seat, role) {
                self.line = line_kept(script, self.at);
                let Some(line) = &self.line else {
                    unreachable!()
                };
                let number = self.at + 1;
                let names = &mut places[seat as usize];
                begin(
                    policy, header, names, number, role, line, written, copying, begun,
                );
                if !matches!(begun, Part::Over) {
                    return;
                }
                bind(names, line, &Handed::Nothing);
            }
            self.pass(script, role);
        }
        *begun = Part::Over;
    }
}

/// The serial run of a script, one call at a time: all its phases and lanes in the order of its lines. It makes no call itself. Contracts see
/// the script, and the entries that are left.
#[derive(Drop)]
pub struct SerialCalls<'a> {
    script: &'a Script<'a>,
    policy: Option<&'a Policy>,
    header: Bindings<u32>,
    /// What the names of each lane stand for, by seats.
    places: Vec<Places>,
    here: Place<'a>,
    /// What the line in which it stands has still to ask for.
    part: Part<'a>,
    /// What a command writes.
    written: Buf,
    /// What a `copy` asks for.
    copying: Copying,
}

impl<'a> Model for SerialCalls<'a> {
    ghost use Rattle.std.{specs.{Prelude.{map}, Coded.{codes}}, proofs.Common.{option_map}};
    ghost use Rattle.ix_label.specs.contracts.label.Label as label_type;
    ghost use Rattle.ix_lanes.specs.{asking.{Asked.{names_code}, Places.{standing}}, running.Serially.{AreTables, IsWithin, SerialLeft}};

    ghost Value = { SerialLeft };

    ghost coded = { Prim.hlevel (codes, label_type.the_row.coded, names_code) };

    ghost view = { λ c. record { script = c.script.now; names = map standing c.places.items; at = c.here.at; seat = c.here.seat; copying = c.copying; part = c.part } };

    ghost invariant = { λ c. AreTables c.script.now c.header c.places.items (option_map (λ p. p.now) c.policy)
        × IsWithin c.script.now c.places.items c.here.at c.here.seat c.here.line c.written c.copying c.part };
}

impl<'a> SerialCalls<'a> {
    ghost use Rattle.std.specs.Prelude.{◌≡◌, ◌∷◌, ◌+◌, ◌<◌, ◌≤◌, ℕ, [], None, Some, IfOk, is_some, length, true};
    ghost use Rattle.std.proofs.Common.{option_map};
    ghost use Rattle.ix_model.specs.{history.{Calls.{event_of}, Events.{Event}, Step.{step_of}}, world.World.{World}};
    ghost use Rattle.ix_lanes.specs.{asking.{Asked.{made_by}, Ruled.{rules_told}}, histories.Serial.{answered, first_names, serial_from}};
    ghost use Rattle.ix_lanes.specs.running.Serially.{entries_left, most_entries, next_entry};

    /// The run of a script before its first call, by the script's policy, if it has one. It takes all the memory that its calls need.
    pub fn new(
        alloc: Global,
        script: &'a Script<'a>,
        policy: Option<&'a Policy>,
    ) -> Result<SerialCalls<'a>, NoMemory>
        requires policy { option_map (λ p. p.now) policy ≡ rules_told script.now }
        ensures script { IfOk result (λ calls. calls.script ≡ script.now) }
        ensures all { IfOk result (λ calls. (w : World) (place : ℕ) → entries_left calls w place ≡ serial_from script.now w place (first_names script.now) None 1 script.now) }
    {
        let header = header_of(alloc, script)?;
        let mut places = all_places(alloc, script)?;
        let (mut written, mut copying, mut part) = ([0; 4096], Copying::new(), Part::Over);
        let mut here = Place {
            at: 0,
            seat: None,
            line: None,
        };
        here.find(
            script,
            policy,
            &header,
            places.as_mut_slice(),
            &mut written,
            &mut copying,
            &mut part,
        );
        Ok(SerialCalls {
            script,
            policy,
            header,
            places,
            here,
            part,
            written,
            copying,
        })
    }

    /// Who makes the call of the command in which it stands, which writes so many bytes, and that call.
    #[inline(always)]
    fn command<'s>(&'s self, seat: u32, count: usize, call: &mut Call<'s>) -> Option<Caller>
        requires stands { self.now.part ≡ part.Command count }
        requires seat { self.now.seat ≡ Some seat }
        ensures { made_by result call.new ≡ next_entry self.now }
    {
        let _count = self.script.len();
        let Some(line) = &self.here.line else {
            unreachable!()
        };
        let written = &self.written[..count];
        let places = &self.places[seat as usize];
        let number = self.here.at + 1;
        call_of(&self.header, places, seat, number, line, written, call)
    }

    /// Who makes the call of the next entry, and that call, which is put where it is to lie; `None` exactly where none is left. It takes no
    /// memory.
    pub fn next_call<'s>(&'s self, call: &mut Call<'s>) -> Option<Caller>
        ensures entry { made_by result call.new ≡ next_entry self.now }
        ensures none { result ≡ None → (w : World) (place : ℕ) → entries_left self.now w place ≡ [] }
    {
        let Some(seat) = self.here.seat else {
            return None;
        };
        match &self.part {
            Part::Over => None,
            Part::Command(count) => self.command(seat, *count, call),
            Part::Copy => called(seat, &self.copying, call),
            Part::Priv(server) => called(seat, server, call),
            Part::Login(server) => called(seat, server, call),
        }
    }

    /// The next entry; `None` exactly where none is left. It takes no memory.
    pub fn next(&self) -> Option<Entry<'_>>
        ensures entry { option_map event_of result ≡ next_entry self.now }
        ensures none { result ≡ None → (w : World) (place : ℕ) → entries_left self.now w place ≡ [] }
    {
        let mut call = Call::MakePipe;
        let Some(caller) = self.next_call(&mut call) else {
            return None;
        };
        Some(Entry {
            seat: caller.seat,
            line: caller.line,
            pid: caller.pid,
            call,
        })
    }

    /// Takes the answer to the next entry: the reply, and the bytes that were read, if any. It takes no memory.
    #[inline(always)]
    pub fn hear(&mut self, reply: &Reply, bytes: &[u8])
        requires due { is_some (next_entry self.old) ≡ true }
        requires few { length bytes.now ≤ 4096 }
        ensures script { self.new.script ≡ self.old.script }
        ensures on { (w : World) (place : ℕ) (e : Event) → next_entry self.old ≡ Some e → answered (step_of w place e) ≡ record { reply = reply.now; bytes = bytes.now }
            → entries_left self.old w place ≡ e ∷ entries_left self.new (step_of w place e).world (place + 1) }
        ensures fewer { most_entries self.new < most_entries self.old }
    {
        let Some(handed) = heard(&mut self.part, &mut self.copying, reply, bytes) else {
            return;
        };
        let Some(seat) = self.here.seat else {
            unreachable!()
        };
        let Some(line) = &self.here.line else {
            unreachable!()
        };
        bind(&mut self.places[seat as usize], line, &handed);
        self.here.leave(self.script);
        self.here.find(
            self.script,
            self.policy,
            &self.header,
            self.places.as_mut_slice(),
            &mut self.written,
            &mut self.copying,
            &mut self.part,
        );
    }
}

/// Who makes the call that stands next, if any, and that call.
#[inline(never)]
fn called<'a, A: Asks>(seat: u32, asks: &'a A, call: &mut Call<'a>) -> Option<Caller>
where
    A::Came: Drop,
    ensures { made_by result call.new ≡ entry_next seat (first (A.asking asks.now)) }
{
    match asks.next() {
        Step::Call {
            line,
            pid,
            call: next,
        } => {
            *call = next;
            return Some(Caller { seat, line, pid });
        }
        Step::Came(_) => return None,
    }
}
