ghost use Rattle.std.specs.{Prelude.{◌≡◌, ◌++◌, OnOk}, Fmt.{decimal}};

use ix_model::NoMemory;
use std::alloc::Global;

/// Appends bytes. `NoMemory` where there was none for them; the text isn't used then.
pub fn push(out: &mut Vec<u8>, text: &[u8]) -> Result<(), NoMemory>
    ensures { OnOk result (out.new.items ≡ out.old.items ++ text.now) }
{
    out.extend_from_slice(text).map_err(|_| NoMemory)
}

/// Appends a number in decimal digits. `NoMemory` where there was none for them; the text isn't used then.
pub fn push_number(alloc: Global, out: &mut Vec<u8>, n: u64) -> Result<(), NoMemory>
    ensures { OnOk result (out.new.items ≡ out.old.items ++ decimal n) }
{
    match n.to_string(alloc) {
        Ok(text) => push(out, text.as_bytes()),
        Err(_) => Err(NoMemory),
    }
}
