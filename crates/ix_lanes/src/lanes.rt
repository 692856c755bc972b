ghost use Rattle.std.specs.Prelude.{◌≡◌, ◌+◌, ◌<◌, ◌≤◌, IfOk, OnOk, length};
ghost use Rattle.ix_script.specs.lines.Before.{proc_name_told};
ghost use Rattle.ix_lanes.specs.histories.{Indexed.{line_in}, Serial.{header_of, numbered}};

use crate::asking::bindings::Bindings;
use crate::lines::{line_at, role_at};
use ix_model::NoMemory;
use ix_script::{Line, Role, Script};
use std::alloc::Global;

/// Lets the name of the line at an index, where that is a `proc` line, stand for the pid after so many. The line is made only where
/// it stands in the header.
fn add_proc(
    header: &mut Bindings<u32>,
    count: u32,
    script: &Script<'_>,
    index: u32,
) -> Result<u32, NoMemory>
    requires few { count < 4294967295 }
    requires within { index < length script.now }
    ensures header { OnOk result (header.new ≡ numbered (count + 1) (proc_name_told (line_in script.now index)) header.old) }
    ensures count { IfOk result (λ n. (n ≡ count + length (proc_name_told (line_in script.now index))) × (n ≤ count + 1)) }
{
    let Role::Header = role_at(script, index) else {
        return Ok(count);
    };
    let Line::Proc { name, .. } = &line_at(script, index) else {
        return Ok(count);
    };
    header.set(name, count + 1)?;
    Ok(count + 1)
}

/// The processes of the header, by their names: they have pids 1, 2 and so on, in order. `NoMemory` where there was none for them.
pub fn header_of(alloc: Global, script: &Script<'_>) -> Result<Bindings<u32>, NoMemory>
    ensures { IfOk result (λ header. header ≡ header_of script.now) }
{
    let mut header = Bindings::new(alloc);
    let mut count = 0;
    for index in 0..script.header_end() {
        count = add_proc(&mut header, count, script, index)?;
    }
    Ok(header)
}
