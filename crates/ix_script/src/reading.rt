ghost use Rattle.std.specs.{Prelude.{◌≡◌, ◌<◌, ◌≤◌, ◌+◌, ◌∷◌, [], true, None, Some, length, take, drop, IfOk, IfErr, OnOk}, List.{list_all}};
ghost use Rattle.ix_script.specs.{lines.Before.{commands, lanes_of}, lines.Faults.{fault_from, fault_of}, reader.Readers.{HasCause, in_printable_lines}};
ghost use Rattle.ix_script.specs.{reader.Told.{DraftTold}, scripts.Schedule.{LanesOnce}, scripts.Packed.{front_of}, scripts.Scripts.{form_in, lines_said, script_of, config_of}};
ghost use Rattle.{ix_script.specs.texts.Lines.{cut, lines_of}, ix_model.specs.opening.Valid.{is_valid}};

use crate::draft::Draft;
use crate::fail::{ReadFail, Rule, fault_at};
use crate::script::Script;
use crate::words::Words;
use bstr::ByteSlice;
use ix_label::Steps;
use std::alloc::Global;
use std::marker::Brand;
use std::sync::ledger::{Blank, Ledger};

/// The first line, and the bytes after its line feed.
fn first_line(bytes: &[u8]) -> (&[u8], &[u8])
    requires { 0 < length bytes.now }
    ensures lines { cut bytes.now ≡ result.0.now ∷ cut result.1.now }
    ensures line { result.0.now ≡ take (length result.0.now) bytes.now }
    ensures rest { result.1.now ≡ drop (length result.0.now + 1) bytes.now }
    ensures fewer { length result.1.now < length bytes.now }
{
    match bytes.split_once_str(b"\n") {
        Some((line, rest)) => (line, rest),
        None => bytes.split_at(bytes.len()),
    }
}

fn all_printable_lines(bytes: &[u8]) -> bool
    ensures { result ≡ list_all in_printable_lines bytes.now }
{
    // No early end: so many bytes are looked at at once.
    let mut all = true;
    for b in bytes {
        all &= *b >= 32 && *b <= 126 || *b == b'\n';
    }
    all
}

impl<'a> Draft<'a> {
    /// The lines of a text; else the first fault. After an error the draft isn't used.
    fn add_lines<L: Ledger>(
        &mut self,
        alloc: Global,
        bytes: &'a [u8],
        steps: &mut Steps<L>,
    ) -> Result<(), ReadFail>
        requires told { DraftTold self.old }
        requires none { self.old.lines ≡ front_of bytes.now }
        requires some { 0 < length bytes.now }
        requires few { length bytes.now ≤ 16777216 }
        ensures told { OnOk result (DraftTold self.new) }
        ensures valid { OnOk result (is_valid (config_of self.new.lines.said) ≡ true) }
        ensures faultless { OnOk result (fault_from [] (lines_of bytes.now) ≡ None) }
        ensures said { OnOk result (lines_said (form_in (lines_of bytes.now)) (lines_of bytes.now) ≡ Some self.new.lines.said) }
        ensures few { OnOk result (length self.new.lines.said ≤ 16777216) }
        ensures few_commands { OnOk result (commands self.new.lines.said ≤ 200000) }
        ensures few_lanes { OnOk result (length (lanes_of self.new.lines.said) ≤ 64) }
        ensures once { OnOk result (LanesOnce self.new.lines.said) }
        ensures fail { IfErr result (λ e. HasCause e (fault_from [] (lines_of bytes.now))) }
    {
        let printable = all_printable_lines(bytes);
        let mut words = Words::none();
        let mut rest = bytes;
        'lines: while !rest.is_empty() {
            let (text, more) = first_line(rest);
            self.add_line(alloc, printable, text, &mut words, steps)?;
            rest = more;
        }
        Ok(())
    }
}

fn read_with<L: Ledger>(alloc: Global, bytes: &[u8], blank: Blank) -> Result<Script<'_>, ReadFail>
    requires name { blank.name ≡ L.name }
    requires parts { blank.parts ≡ L.parts }
    requires some { 0 < L.parts }
    ensures script { IfOk result (λ s. script_of bytes.now ≡ Some s) }
    ensures fail { IfErr result (λ e. HasCause e (fault_of bytes.now)) }
{
    if bytes.len() > 16_777_216 {
        return Err(fault_at(1, Rule::LONG_SCRIPT));
    }
    if bytes.is_empty() {
        return Err(fault_at(1, Rule::NO_VERSION));
    }
    let mut steps = Steps::<L>::new(blank);
    let mut draft = Draft::new(alloc, bytes)?;
    draft.add_lines(alloc, bytes, &mut steps)?;
    let body = draft.body;
    let script = Script::of(alloc, draft.lines, body.lanes, body.phases)?;
    Ok(script)
}

/// The script that the bytes are; else the first line, from 1, that breaks a rule, and the least rule that it breaks, by all rules
/// but 27, on what a policy says. `ReadFail::NoMemory` where there was none for the script, which borrows the bytes.
pub fn read(alloc: Global, bytes: &[u8]) -> Result<Script<'_>, ReadFail>
    ensures script { IfOk result (λ s. script_of bytes.now ≡ Some s) }
    ensures fail { IfErr result (λ e. HasCause e (fault_of bytes.now)) }
{
    read_with::<Brand>(alloc, bytes, Blank::new(1))
}
