ghost use Rattle.std.specs.Prelude.{◌≡◌, ℕ, ◌+◌, ◌-◌, ◌<◌, ◌^◌, Bool, true, false, not, IsTrue, IfOk, IfSome, slice_index_or, length, count_by, is_some, Some};
ghost use Rattle.std.specs.Prelude.{position, ◌&&◌};
ghost use Rattle.std.{specs.{Option.{option_copied, option_map_or, option_and_then}, List.{list_any}}, proofs.Common.{option_map}};
ghost use Rattle.ix_model.specs.world.{World.{Process, at, put, change, living, is_ended}, Callers.{number_of, caller_of, with_caller}};
ghost use Rattle.ix_model.specs.{rows.OnProcesses.{has_kept, is_child}, history.Views.{shown_of}};
ghost use Rattle.ix_proc.specs.Table.{no_processes, Adds, starting, child_of, ended, collected, EndedChild};
ghost use Rattle.ix_proc.specs.Slots.{process_of, process_in, status_in, with_record, new_record};

use crate::descriptors::kept;
use crate::search::{chain_behind, first_ended, place_of};
use crate::slot::{Record, Slot, blank};
use bitflags::Flags;
use ix_label::Label;
use ix_links::Links;
use ix_model::{Caller, Floating, Keep, NoMemory, Obj, Pid, PrivSet, ProcSpec, ProcView};
use std::alloc::Global;
use std::marker::Model;

/// Processes by pid, living and ended. The next pid is above them all; no pid is used twice.
///
/// All memory is taken by [`new`](Procs::new). A call that is given a pid costs the logarithm of the number of
/// processes, where it says nothing else.
#[derive(Drop)]
pub struct Procs {
    /// The link of each pid that has a record, by rising pid.
    slots: Vec<Slot>,
    /// The record of each link.
    records: Vec<Record>,
    /// The links of the children of each process on the chain of its own link, and those of the processes without a
    /// parent on the chain behind these. Each chain rises by pid.
    kin: Links,
    next: u32,
}

impl Model for Procs {
    ghost use Rattle.std.specs.{Prelude.{vec_capacity, ◌≡◌, ◌<◌, ◌^◌, length}, Coded.{codes}};
    ghost use Rattle.ix_label.specs.contracts.label.Label as label_type;
    ghost use Rattle.ix_proc.specs.{Table.{ProcTable}, Slots.{table_of, laid, AreSlots}, Kin.{AreKin}};

    ghost Value = { ProcTable };

    ghost coded = { Prim.hlevel (codes, label_type.the_row.coded) };

    ghost view = { λ m. table_of (laid m.slots.items m.records.items m.next) (vec_capacity m.slots) };

    ghost invariant = { λ m. AreSlots m.slots.items m.records.items m.next
        × AreKin m.slots.items m.records.items m.kin (vec_capacity m.slots)
        × (length m.records.items ≡ vec_capacity m.slots)
        × (vec_capacity m.slots < 2 ^ 32) };
}

impl Procs {
    /// Room for so many processes, and none yet.
    ///
    /// It takes all memory that there will be, and refuses where there is not so much. It costs a step for each.
    pub fn new(alloc: Global, procs: u32) -> Result<Procs, NoMemory>
        ensures { IfOk result (λ m. m ≡ no_processes procs) }
    {
        let Some(chains) = procs.checked_add(1) else {
            return Err(NoMemory);
        };
        let slots = Vec::with_capacity(alloc, procs as usize)?;
        let records = vec![in alloc; blank(); procs as usize]?;
        let kin = Links::new(alloc, procs, chains)?;
        Ok(Procs {
            slots,
            records,
            kin,
            next: 1,
        })
    }

    /// A process without a parent, as a config has it; `None`, and nothing has changed, exactly where there is no room.
    ///
    /// Constant time.
    pub fn add(&mut self, spec: &ProcSpec) -> Option<Pid>
        requires { length self.old.processes < 2 ^ 32 - 1 }
        ensures { Adds result (starting spec.now) self.old self.new }
    {
        let who = Caller {
            pid: self.next_pid(),
            float: Floating {
                label: spec.label,
                ceiling: spec.ceiling,
                frozen: false,
            },
            cap: spec.cap,
            lic: spec.lic,
            own: PrivSet::empty(),
            cwd: Obj(0),
            fds: [None; 32],
        };
        self.push(who, None)
    }

    /// A child like its parent, with the descriptors that are kept; `None`, and nothing has changed, exactly where
    /// there is no room.
    pub fn fork(&mut self, parent: Pid, keep: Keep) -> Option<Pid>
        requires next { length self.old.processes < 2 ^ 32 - 1 }
        requires kept { IsTrue (option_map_or (has_kept keep) (living (at self.old.processes parent.0)) false) }
        ensures { (p : Process)
            → at self.old.processes parent.0 ≡ Some p
            → Adds result (child_of parent.0 keep p) self.old self.new }
    {
        let Some(who) = self.get(parent) else {
            unreachable!()
        };
        let who = Caller {
            pid: self.next_pid(),
            fds: kept(keep, &who.fds),
            ..*who
        };
        self.push(who, Some(parent))
    }

    /// The living process of a pid; `None` exactly where none lives.
    pub fn get(&self, pid: Pid) -> Option<&Caller>
        ensures { option_copied result ≡ option_map (caller_of pid.0) (living (at self.now.processes pid.0)) }
    {
        let record = self.record(pid)?;
        match record.ended {
            Some(_) => None,
            None => Some(&record.who),
        }
    }

    /// Puts a process in the place of itself: the one of `who.pid`, which it asks to be living. Its parent stays, and so
    /// does all else.
    pub fn put(&mut self, who: &Caller)
        requires { IsTrue (is_some (living (at self.old.processes who.now.pid.0))) }
        ensures { self.new ≡ record self.old { processes = change self.old.processes who.now.pid.0 (with_caller who.now) } }
    {
        let Some(k) = place_of(self.slots.as_slice(), who.pid.0) else {
            unreachable!()
        };
        let link = self.slots[k].link;
        self.records[link as usize].who = *who;
    }

    /// The process ends. Its record stays, with the status, until its parent collects it; where it has no parent the
    /// record goes at once, at the cost of [`collect`](Procs::collect).
    pub fn end(&mut self, pid: Pid, status: u8)
        requires lives { IsTrue (is_some (living (at self.old.processes pid.0))) }
        requires childless { list_any (is_child pid.0) self.old.processes ≡ false }
        ensures { self.new ≡ ended pid.0 status self.old }
    {
        let Some(record) = self.record(pid) else {
            unreachable!()
        };
        if record.parent.is_none() {
            self.remove(pid);
            return;
        }
        let ended = Record {
            ended: Some(status),
            ..*record
        };
        self.set(&ended);
    }

    /// The parent of a process, living or ended; `None` exactly where it has none, or no record.
    pub fn parent(&self, pid: Pid) -> Option<Pid>
        ensures { option_map number_of result ≡ option_and_then (λ p. p.parent) (at self.now.processes pid.0) }
    {
        self.record(pid)?.parent
    }

    /// Whether a process, living or ended, has that parent; `false` where the pid has no record.
    pub fn has_child(&self, pid: Pid) -> bool
        ensures { result ≡ list_any (is_child pid.0) self.now.processes }
    {
        let Some(k) = place_of(self.slots.as_slice(), pid.0) else {
            return false;
        };
        self.kin.first(self.slots[k].link).is_some()
    }

    /// The ended child with the lowest pid, its label and its exit status; `None` exactly where no child has ended.
    ///
    /// It costs a step for each child up to that one.
    pub fn ended_child(&self, pid: Pid) -> Option<(Pid, Label, u8)>
        ensures { EndedChild result pid.0 self.now }
    {
        let k = place_of(self.slots.as_slice(), pid.0)?;
        let link = first_ended(&self.kin, self.records.as_slice(), self.slots[k].link)?;
        let record = &self.records[link as usize];
        let Some(status) = record.ended else {
            unreachable!()
        };
        Some((record.who.pid, record.who.float.label, status))
    }

    /// The record of an ended process goes. All else stays.
    ///
    /// The pids behind it move up by a place, so that they stay a sorted row that can be searched by halves: one copy
    /// of 8 bytes for each, and a valid config has at most 1,024 processes.
    pub fn collect(&mut self, child: Pid)
        requires { IsTrue (is_ended (at self.old.processes child.0)) }
        ensures { self.new ≡ collected child.0 self.old }
    {
        self.remove(child);
    }

    /// The label of a process, living or ended, and whether it has ended; `None` exactly where the pid has no record.
    pub fn look(&self, pid: Pid) -> Option<ProcView>
        ensures { result ≡ option_map shown_of (at self.now.processes pid.0) }
    {
        let record = self.record(pid)?;
        Some(ProcView {
            label: record.who.float.label,
            ended: record.ended.is_some(),
        })
    }

    /// How many more processes there is room for. Constant time.
    pub fn free(&self) -> u32
        ensures { result ≡ self.now.limit - count_by is_some self.now.processes }
    {
        (self.slots.capacity() - self.slots.len()) as u32
    }

    /// The pid that the next process gets. Constant time.
    pub fn next_pid(&self) -> Pid
        ensures { result.0 ≡ length self.now.processes }
    {
        Pid(self.next)
    }

    /// The record of a process, living or ended, if there is one.
    fn record(&self, pid: Pid) -> Option<&Record>
        ensures process { process_in (option_copied result) ≡ at self.now.processes pid.0 }
        ensures status { status_in (option_copied result) ≡ slice_index_or self.now.statuses pid.0 0 }
        ensures named { IfSome result (λ r. r.now.who.pid.0 ≡ pid.0) }
    {
        let k = place_of(self.slots.as_slice(), pid.0)?;
        Some(&self.records[self.slots[k].link as usize])
    }

    /// A living process under the next pid; `None`, and nothing has changed, exactly where there is no room.
    fn push(&mut self, who: Caller, parent: Option<Pid>) -> Option<Pid>
        requires next { length self.old.processes < 2 ^ 32 - 1 }
        requires pid { who.pid.0 ≡ length self.old.processes }
        requires parent { option_map_or (λ q. is_some (living (at self.old.processes q.0))) parent true ≡ true }
        ensures { Adds result (process_of (new_record who parent)) self.old self.new }
    {
        let roots = self.records.len() as u32;
        let chain = chain_behind(self.slots.as_slice(), roots, parent);
        let link = self.kin.push_back(chain)?;
        let pid = who.pid;
        self.records[link as usize] = Record {
            who,
            parent,
            ended: None,
        };
        self.slots.push_reserved(Slot { pid, link });
        self.next += 1;
        Some(pid)
    }

    /// Puts a record in the place of that of its pid. The parent stays, and a process that ends has no child.
    fn set(&mut self, new: &Record)
        requires there { IsTrue (is_some (at self.old.processes new.now.who.pid.0)) }
        requires parent { option_and_then (λ p. p.parent) (at self.old.processes new.now.who.pid.0) ≡ option_map number_of new.now.parent }
        requires childless { IsTrue (is_some new.now.ended) → list_any (is_child new.now.who.pid.0) self.old.processes ≡ false }
        ensures { self.new ≡ with_record new.now self.old }
    {
        let Some(k) = place_of(self.slots.as_slice(), new.who.pid.0) else {
            unreachable!()
        };
        let link = self.slots[k].link;
        self.records[link as usize] = *new;
    }

    /// The record of a pid goes. A process that lives has no child then; one that has ended has none anyway.
    fn remove(&mut self, pid: Pid)
        requires there { IsTrue (is_some (at self.old.processes pid.0)) }
        requires childless { IsTrue (is_some (living (at self.old.processes pid.0))) → list_any (is_child pid.0) self.old.processes ≡ false }
        ensures { self.new ≡ collected pid.0 self.old }
    {
        let Some(k) = place_of(self.slots.as_slice(), pid.0) else {
            unreachable!()
        };
        let link = self.slots[k].link;
        let roots = self.records.len() as u32;
        let chain = chain_behind(
            self.slots.as_slice(),
            roots,
            self.records[link as usize].parent,
        );
        self.slots.remove(k);
        self.kin.remove(chain, link);
    }
}
