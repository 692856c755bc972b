ghost use Rattle.std.specs.Prelude.{◌≡◌, ◌≤◌, ◌<◌, ◌+◌, ◌^◌, ◌++◌, ℕ, List, [], drop, max, unwrap_or, IfSome, IsSome, OnOk};
ghost use Rattle.std.specs.{BTreeMap.{IsOrdered, get}, Ordering.{nat_cmp}};
ghost use Rattle.ix_model.specs.world.Contents.{resized, written_over};
ghost use Rattle.ix_flow.specs.Origins as origin;
ghost use Rattle.ix_flow.specs.{Origins.{Origin}, Sides.{Begins, ComesOf, IsLike, NoneBegins, StandsIn, numbered, origin_at, source_in, start_of}};
ghost use Rattle.ix_flow.specs.declared.source.Source.{Source, TheVariants.{Gap, Write}};

use crate::source::Source;
use ix_model::NoMemory;
use std::alloc::Global;
use std::collections::BTreeMap;

/// Where what an end of an object can read came from: of each run the number at which it begins, and its source. A run goes on
/// to the next one, or to the end.
///
/// Numbers, offsets and counts are of bytes. After `NoMemory` it stands for nothing and isn't used again.
#[derive(Drop)]
pub struct Side {
    /// The number of the first byte that is there: those before it were taken from the front.
    front: u32,
    /// The number behind the last byte.
    end: u32,
    runs: BTreeMap<u32, Source>,
}

impl Side {
    /// One that holds nothing.
    pub fn new(alloc: Global) -> Side
        ensures empty { (result.front ≡ 0) × (result.end ≡ 0) }
        ensures like { IsLike result [] }
    {
        Side {
            front: 0,
            end: 0,
            runs: BTreeMap::new(alloc),
        }
    }

    /// The number of the first byte that is there.
    pub fn front(&self) -> u32
        ensures { result ≡ self.now.front }
    {
        self.front
    }

    /// The number behind the last byte.
    pub fn end(&self) -> u32
        ensures { result ≡ self.now.end }
    {
        self.end
    }

    /// The source of the byte of a number; a gap where no run begins at or before it.
    pub(crate) fn source(&self, number: u32) -> Source
        ensures { result ≡ source_in self.now.runs.entries number }
    {
        match self.runs.range(0..=number).next_back() {
            Some((_, source)) => *source,
            None => Source::Gap,
        }
    }

    /// Lets a run begin at a number, of the source that is there.
    fn split(&mut self, number: u32) -> Result<(), NoMemory>
        ensures same { OnOk result ((n : ℕ) → source_in self.new.runs.entries n ≡ source_in self.old.runs.entries n) }
        ensures begins { OnOk result (Begins number self.new.runs.entries) }
        ensures front { self.new.front ≡ self.old.front }
        ensures end { self.new.end ≡ self.old.end }
    {
        let source = self.source(number);
        match self.runs.insert(number, source) {
            Ok(_) => Ok(()),
            Err(_) => Err(NoMemory),
        }
    }

    /// The number at which the first of those runs begins that begin from one number on and before another.
    fn first_within(&self, from: u32, to: u32) -> Option<u32>
        requires { from ≤ to }
        ensures within { IfSome result (λ n. (from ≤ n) × (n < to)) }
        ensures there { IfSome result (λ n. IsSome (get nat_cmp self.now.runs n)) }
        ensures ordered { IsOrdered nat_cmp self.now.runs }
        ensures none { NoneBegins from (unwrap_or result to) self.now.runs.entries }
    {
        match self.runs.range(from..to).next() {
            Some((number, _)) => Some(*number),
            None => None,
        }
    }

    /// Takes away the runs that begin from one number on and before another.
    fn clear(&mut self, from: u32, to: u32)
        requires { from ≤ to }
        ensures before { (n : ℕ) → n < from → source_in self.new.runs.entries n ≡ source_in self.old.runs.entries n }
        ensures begins { Begins to self.old.runs.entries → Begins to self.new.runs.entries }
        ensures behind { Begins to self.old.runs.entries → (n : ℕ) → to ≤ n → source_in self.new.runs.entries n ≡ source_in self.old.runs.entries n }
        ensures none { NoneBegins from to self.new.runs.entries }
        ensures front { self.new.front ≡ self.old.front }
        ensures end { self.new.end ≡ self.old.end }
    {
        while let Some(number) = self.first_within(from, to) {
            self.runs.remove(&number);
        }
    }

    /// Lets a run of a source begin at a number, unless that is a gap and one is there anyway.
    fn begin(&mut self, number: u32, source: Source) -> Result<(), NoMemory>
        ensures before { OnOk result ((n : ℕ) → n < number → source_in self.new.runs.entries n ≡ source_in self.old.runs.entries n) }
        ensures there { OnOk result ((to n : ℕ) → NoneBegins number to self.old.runs.entries → number ≤ n → n < to → source_in self.new.runs.entries n ≡ source) }
        ensures behind { OnOk result ((to n : ℕ) → Begins to self.old.runs.entries → number < to → to ≤ n → source_in self.new.runs.entries n ≡ source_in self.old.runs.entries n) }
        ensures front { self.new.front ≡ self.old.front }
        ensures end { self.new.end ≡ self.old.end }
    {
        if let (Source::Gap, Source::Gap) = (source, self.source(number)) {
            return Ok(());
        }
        match self.runs.insert(number, source) {
            Ok(_) => Ok(()),
            Err(_) => Err(NoMemory),
        }
    }

    /// Lays bytes of a source from one number on and before another. They begin at the end at the latest.
    fn lay(&mut self, from: u32, to: u32, source: Source) -> Result<(), NoMemory>
        requires some { from < to }
        requires near { from ≤ self.old.end }
        ensures before { OnOk result ((n : ℕ) → n < from → source_in self.new.runs.entries n ≡ source_in self.old.runs.entries n) }
        ensures there { OnOk result ((n : ℕ) → from ≤ n → n < to → source_in self.new.runs.entries n ≡ source) }
        ensures behind { OnOk result ((n : ℕ) → to ≤ n → n < self.old.end → source_in self.new.runs.entries n ≡ source_in self.old.runs.entries n) }
        ensures front { self.new.front ≡ self.old.front }
        ensures end { OnOk result (self.new.end ≡ max self.old.end to) }
    {
        if to < self.end {
            self.split(to)?;
        }
        self.clear(from, to);
        self.begin(from, source)?;
        self.end = self.end.max(to);
        Ok(())
    }

    /// Lets the end be at a number, or further on where it was; what comes between is a gap.
    fn grow(&mut self, to: u32) -> Result<(), NoMemory>
        ensures before { OnOk result ((n : ℕ) → n < self.old.end → source_in self.new.runs.entries n ≡ source_in self.old.runs.entries n) }
        ensures gap { OnOk result ((n : ℕ) → self.old.end ≤ n → n < to → source_in self.new.runs.entries n ≡ Gap) }
        ensures front { self.new.front ≡ self.old.front }
        ensures end { OnOk result (self.new.end ≡ max self.old.end to) }
    {
        if self.end < to {
            return self.lay(self.end, to, Source::Gap);
        }
        Ok(())
    }

    /// Puts so many bytes of a write over those of a file, from an offset on; a gap before them is one. `NoMemory` where there was
    /// none for a run, or the file would end past 2^32 - 1.
    pub fn write(&mut self, offset: u32, count: u32, place: u32, label: u32) -> Result<(), NoMemory>
        ensures like { OnOk result ((origins : List Origin) → self.old.front ≡ 0 → IsLike self.old origins
            → IsLike self.new (written_over origin.Gap offset (numbered (origin.Written place) 0 count) origins)) }
        ensures sources { OnOk result ((x : Source) → StandsIn self.new x → ComesOf self.old (Write place offset label) x) }
        ensures front { self.new.front ≡ self.old.front }
    {
        if count == 0 {
            return Ok(());
        }
        let Some(end) = offset.checked_add(count) else {
            return Err(NoMemory);
        };
        self.grow(offset)?;
        let source = Source::Write {
            place,
            start: offset,
            label,
        };
        self.lay(offset, end, source)?;
        Ok(())
    }

    /// Puts so many bytes of a write behind those that are there. `NoMemory` where there was none for a run, or the number behind
    /// the last byte would be past 2^32 - 1.
    pub fn append(&mut self, count: u32, place: u32, label: u32) -> Result<(), NoMemory>
        ensures like { OnOk result ((origins : List Origin) → IsLike self.old origins → IsLike self.new (origins ++ numbered (origin.Written place) 0 count)) }
        ensures sources { OnOk result ((x : Source) → StandsIn self.new x → ComesOf self.old (Write place self.old.end label) x) }
    {
        if count == 0 {
            return Ok(());
        }
        let start = self.end;
        let Some(end) = start.checked_add(count) else {
            return Err(NoMemory);
        };
        let source = Source::Write {
            place,
            start,
            label,
        };
        self.lay(start, end, source)?;
        Ok(())
    }

    /// Takes so many bytes from the front, as far as there are any. `NoMemory` where a run is parted, and there was none for its
    /// rest.
    pub fn take(&mut self, count: u32) -> Result<(), NoMemory>
        ensures like { OnOk result ((origins : List Origin) → IsLike self.old origins → IsLike self.new (drop count origins)) }
        ensures sources { OnOk result ((x : Source) → StandsIn self.new x → StandsIn self.old x) }
    {
        let count = count.min(self.end.saturating_sub(self.front));
        let front = self.front + count;
        if front < self.end {
            self.split(front)?;
        }
        self.clear(0, front);
        self.front = front;
        Ok(())
    }

    /// Sets the length of a file: what is past it goes, and what is missing is a gap. `NoMemory` where there was none for the gap.
    pub fn cut(&mut self, len: u32) -> Result<(), NoMemory>
        ensures like { OnOk result ((origins : List Origin) → self.old.front ≡ 0 → IsLike self.old origins → IsLike self.new (resized origin.Gap len origins)) }
        ensures sources { OnOk result ((x : Source) → StandsIn self.new x → ComesOf self.old Gap x) }
        ensures front { self.new.front ≡ self.old.front }
    {
        self.grow(len)?;
        if len < self.end {
            self.clear(len, self.end);
            self.end = len;
        }
        Ok(())
    }

    /// The number at which a run begins behind a number and before another, or that one where none does.
    pub(crate) fn next(&self, number: u32, to: u32) -> u32
        requires { number < to }
        ensures further { number < result }
        ensures within { result ≤ to }
        ensures same { (n : ℕ) → number ≤ n → n < result → source_in self.now.runs.entries n ≡ source_in self.now.runs.entries number }
    {
        match self.first_within(number + 1, to) {
            Some(next) => next,
            None => to,
        }
    }

    /// Lays so many bytes of a source where nothing was.
    pub(crate) fn fill(&mut self, count: u32, source: Source) -> Result<(), NoMemory>
        requires empty { (self.old.front ≡ 0) × (self.old.end ≡ 0) }
        requires first { start_of source ≡ 0 }
        ensures like { OnOk result (IsLike self.new (numbered (origin_at source) 0 count)) }
        ensures sources { OnOk result ((x : Source) → StandsIn self.new x → x ≡ source) }
        ensures first { self.new.front ≡ 0 }
    {
        if count == 0 {
            return Ok(());
        }
        self.lay(0, count, source)?;
        Ok(())
    }
}
