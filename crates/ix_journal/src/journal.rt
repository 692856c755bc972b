ghost use Rattle.std.specs.Prelude.{◌≡◌, ◌≤◌, ◌+◌, ◌==◌, ◌-◌, ◌↔◌, IfOk, IsTrue, None, [], length, slice_get, if◌then◌else◌};
ghost use Rattle.std.specs.Option.{option_map};
ghost use Rattle.ix_model.specs.history.{Calls.{op_of, event_of}, Cost.{cost_of, cost_of_history}};
ghost use Rattle.ix_journal.specs.Entries.{Fits, with_event, event_in, IsWhole};

use crate::cost::{ENTRY, cost_of};
use crate::packing::{head_of, put_label, put_words};
use crate::record::Record;
use crate::unpacking::call_in;
use ix_label::Label;
use ix_model::{Call, Entry, NoMemory, Pid};
use std::alloc::Global;
use std::marker::Model;

/// The entries of a history, which cost at most `cap` together.
///
/// An entry is kept as a record of fixed size, its words, which are the bytes that it writes or the texts of its paths, and its
/// label, if it names one. Record and label take at most 128 bytes: so the memory that entries touch is at most what they cost.
///
/// Contracts see the entries and the cap.
#[derive(Drop)]
pub struct Journal {
    cap: u64,
    /// What the entries cost together.
    used: u64,
    records: Vec<Record>,
    words: Vec<u8>,
    /// Few calls name a label, so they stand apart.
    labels: Vec<Label>,
}

impl Model for Journal {
    ghost use Rattle.std.specs.{Prelude.{map, vec_capacity}, Coded.{codes}};
    ghost use Rattle.ix_label.specs.contracts.label.Label as label_type;
    ghost use Rattle.ix_journal.specs.Entries.{Entries, AreEntries, event_in};

    ghost Value = { Entries };

    ghost coded = { Prim.hlevel (codes, label_type.the_row.coded) };

    ghost view = { λ j. record { cap = j.cap; events = map (event_in j.labels.items j.words.items) j.records.items } };

    ghost invariant = { λ j. AreEntries j.cap j.used (vec_capacity j.records) (vec_capacity j.words) (vec_capacity j.labels) j.records.items j.words.items j.labels.items };
}

impl Journal {
    /// A journal without entries, of a cap in bytes, at most 870,400,000. It reserves whatever entries of that cost may
    /// take, and touches none of it: `cap` bytes for words, and for each 128 of them a record and a label. Where that isn't there it answers `NoMemory`. No other call takes memory.
    pub fn new(alloc: Global, cap: u64) -> Result<Journal, NoMemory>
        requires { cap ≤ 870400000 }
        ensures { IfOk result (λ j. j ≡ record { cap = cap; events = [] }) }
    {
        let records = Vec::with_capacity(alloc, (cap / ENTRY) as usize)?;
        let words = Vec::with_capacity(alloc, cap as usize)?;
        let labels = Vec::with_capacity(alloc, (cap / ENTRY) as usize)?;
        Ok(Journal {
            cap,
            used: 0,
            records,
            words,
            labels,
        })
    }

    /// What a call costs: 128, plus the bytes of a WriteFd, plus for each name of its paths the length and one more.
    pub fn cost(call: &Call<'_>) -> u64
        ensures { result ≡ cost_of (op_of call.now) }
    {
        cost_of(call)
    }

    /// What the entries cost together, at most the cap.
    pub fn used(&self) -> u64
        ensures used { result ≡ cost_of_history self.now.events }
        ensures within { result ≤ self.now.cap }
    {
        self.used
    }

    /// What the entries may cost together, at most 870,400,000.
    pub fn cap(&self) -> u64
        ensures cap { result ≡ self.now.cap }
        ensures small { result ≤ 870400000 }
    {
        self.cap
    }

    /// Whether the journal takes that entry: what is used, and what the entry costs, are at most the cap.
    pub fn fits(&self, entry: &Entry<'_>) -> bool
        ensures { IsTrue result ↔ Fits self.now (event_of entry.now) }
    {
        self.takes(&entry.call)
    }

    /// Whether the journal takes an entry of that call.
    pub fn takes(&self, call: &Call<'_>) -> bool
        ensures { IsTrue result ↔ (cost_of_history self.now.events + cost_of (op_of call.now) ≤ self.now.cap) }
    {
        cost_of(call) <= self.cap - self.used
    }

    /// One entry more, at the end, which has to fit. Its bytes and the texts of its paths are copied, into memory that was reserved.
    pub fn push(&mut self, entry: &Entry<'_>)
        requires { Fits self.old (event_of entry.now) }
        ensures { self.new ≡ with_event (event_of entry.now) self.old }
    {
        self.keep(entry.seat, entry.line, entry.pid, &entry.call);
    }

    /// The same for an entry that is told by its parts.
    pub fn keep(&mut self, seat: u32, line: u32, pid: Pid, call: &Call<'_>)
        requires { Fits self.old (record { seat = seat; line = line; pid = pid.0; op = op_of call.now }) }
        ensures { self.new ≡ with_event (record { seat = seat; line = line; pid = pid.0; op = op_of call.now }) self.old }
    {
        let start = self.words.len();
        put_words(&mut self.words, call);
        let len = self.words.len() - start;
        let at = self.labels.len();
        put_label(&mut self.labels, call);
        self.used += cost_of(call);
        self.records.push_reserved(Record {
            seat,
            line,
            pid,
            start: start as u32,
            len: len as u32,
            head: head_of(call, at as u32),
        });
    }

    /// How many entries it has.
    pub fn len(&self) -> u32
        ensures { result ≡ length self.now.events }
    {
        self.records.len() as u32
    }

    /// The entry at a place, from 1; `None` exactly at 0 and past the last. What it writes and its paths are
    /// lent, not copied.
    pub fn entry(&self, place: u32) -> Option<Entry<'_>>
        ensures { option_map event_of result ≡ (if place == 0 then None else slice_get self.now.events (place - 1)) }
    {
        if place == 0 {
            return None;
        }
        match self.records.get(place as usize - 1) {
            Some(record) => {
                let labels = self.labels.as_slice();
                Some(entry_in(record, labels, self.words.as_slice()))
            }
            None => None,
        }
    }
}

/// The entry of a record whose words and label lie among these.
fn entry_in<'a>(recorded: &Record, labels: &[Label], words: &'a [u8]) -> Entry<'a>
    requires { IsWhole labels.now words.now recorded.now }
    ensures { event_of result ≡ event_in labels.now words.now recorded.now }
{
    let start = recorded.start as usize;
    let words = &words[start..start + recorded.len as usize];
    Entry {
        seat: recorded.seat,
        line: recorded.line,
        pid: recorded.pid,
        call: call_in(labels, &recorded.head, words),
    }
}
