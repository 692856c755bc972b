ghost use Rattle.std.specs.Prelude.{◌≡◌, ◌≢◌, ◌<◌, [], false, true, length, OnOk};
ghost use Rattle.ix_model.specs.history.History.{world_of};
ghost use Rattle.ix_replay.specs.report.{Report.{closing_text}, Telling.{Tells, TellsLine, left_of, pieces_of}};
ghost use Rattle.ix_replay.specs.declared.reporting.closing.Next.TheVariants as next;

use crate::reporting::pieces::{push_heading, push_object, push_process};
use ix_core::Core;
use ix_label::Form;
use ix_model::NoMemory;
use ix_report::{audit_line, tail};

/// What is told next.
#[derive(Clone, Copy, Debug, PartialEq, Eq)]
pub enum Next {
    /// The heading of the objects.
    Head,
    /// The object of a number, or the heading after the last one.
    Object(u32),
    /// The process of a pid, or the heading after the last one.
    Process(u32),
    /// The line of the audit log at an index, or the last line of all.
    Log(u32),
    End,
}

/// What closes a report, told piece by piece: the history, and what comes next.
#[derive(Drop)]
pub struct Closing<'a> {
    /// The form in which labels are spelled.
    form: Form,
    history: &'a Core,
    next: Next,
}

impl<'a> Closing<'a> {
    /// What closes the report of the history that a core has, in the form, of which nothing was told.
    pub fn new(form: Form, history: &'a Core) -> Closing<'a>
        ensures { left_of result ≡ closing_text form (world_of history.now) (length history.now.events) }
    {
        Closing {
            form,
            history,
            next: Next::Head,
        }
    }

    /// The same, where this is told next.
    pub fn at(form: Form, history: &'a Core, next: Next) -> Closing<'a>
        ensures form { result.form ≡ form }
        ensures history { result.history.now ≡ history.now }
        ensures next { result.next ≡ next }
    {
        Closing {
            form,
            history,
            next,
        }
    }

    /// What is told next.
    pub fn next(&self) -> Next
        ensures { result ≡ self.now.next }
    {
        self.next
    }

    /// Whether all was told.
    #[tactic(auto, unfolding(crate::specs::report::Telling::left_of, crate::specs::report::Telling::pieces_of))]
    pub fn is_told(&self) -> bool
        ensures told { result ≡ true → left_of self.now ≡ [] }
        ensures going { result ≡ false → 0 < pieces_of self.now }
        ensures left { result ≡ false → left_of self.now ≢ [] }
    {
        match self.next {
            Next::Head => false,
            Next::Object(_) => false,
            Next::Process(_) => false,
            Next::Log(_) => false,
            Next::End => true,
        }
    }

    /// Tells the heading of the objects.
    fn tell_head(&mut self, out: &mut Vec<u8>) -> Result<(), NoMemory>
        requires { self.old.next ≡ next.Head }
        ensures { OnOk result (Tells self.old self.new out.old.items out.new.items) }
    {
        push_heading(out, b"objects\n")?;
        self.next = Next::Object(0);
        Ok(())
    }

    /// Tells the object of a number, or the heading after the last one.
    fn tell_object(&mut self, out: &mut Vec<u8>, n: u32) -> Result<(), NoMemory>
        requires { self.old.next ≡ next.Object n }
        ensures { OnOk result (Tells self.old self.new out.old.items out.new.items) }
    {
        if n >= self.history.objects() {
            push_heading(out, b"processes\n")?;
            self.next = Next::Process(0);
            return Ok(());
        }
        push_object(out, self.form, self.history, n)?;
        self.next = Next::Object(n + 1);
        Ok(())
    }

    /// Tells the process of a pid, or the heading after the last one.
    fn tell_process(&mut self, out: &mut Vec<u8>, pid: u32) -> Result<(), NoMemory>
        requires { self.old.next ≡ next.Process pid }
        ensures { OnOk result (Tells self.old self.new out.old.items out.new.items) }
    {
        if pid >= self.history.next_pid().0 {
            push_heading(out, b"log\n")?;
            self.next = Next::Log(0);
            return Ok(());
        }
        push_process(out, self.form, self.history, pid)?;
        self.next = Next::Process(pid + 1);
        Ok(())
    }

    /// Tells the line of the audit log at an index, or the last line of all.
    fn tell_log(&mut self, out: &mut Vec<u8>, n: u32) -> Result<(), NoMemory>
        requires { self.old.next ≡ next.Log n }
        ensures { OnOk result (Tells self.old self.new out.old.items out.new.items) }
    {
        let lines = self.history.log_len();
        let Some(line) = self.history.log_line(n) else {
            tail(out, self.form, self.history.len(), lines)?;
            self.next = Next::End;
            return Ok(());
        };
        audit_line(out, self.form, &line)?;
        self.next = Next::Log(n + 1);
        Ok(())
    }

    /// Tells the next piece: a heading or a line, or nothing of a number at which nothing stands. It asks that a piece is left, as
    /// [`is_told`](Closing::is_told) tells. After `NoMemory` some of it may have been told, and the closing isn't gone on with.
    pub fn tell(&mut self, out: &mut Vec<u8>) -> Result<(), NoMemory>
        requires { 0 < pieces_of self.old }
        ensures { OnOk result (Tells self.old self.new out.old.items out.new.items) }
    {
        match self.next {
            Next::Head => self.tell_head(out),
            Next::Object(n) => self.tell_object(out, n),
            Next::Process(pid) => self.tell_process(out, pid),
            Next::Log(n) => self.tell_log(out, n),
            Next::End => Ok(()),
        }
    }

    /// Tells the next line, or nothing where none is left. After `NoMemory` some of it may have been told.
    pub fn tell_line(&mut self, out: &mut Vec<u8>) -> Result<(), NoMemory>
        ensures { OnOk result (TellsLine self.old self.new out.old.items out.new.items) }
    {
        let before = out.len();
        'pieces: while out.len() == before && !self.is_told() {
            self.tell(out)?;
        }
        Ok(())
    }
}
