ghost use Rattle.std.specs.Prelude.{◌≡◌, ◌≤◌, IfOk, length};
ghost use Rattle.ix_machine.specs.Opened.{opened};

use ix_model::{NoMemory, ProcSpec};
use ix_proc::Procs;
use std::alloc::Global;

/// The processes of these lines under the pids from 1 on, in order, with room for so many.
#[tactic(auto, using(crate::proofs::Booting::booting))]
pub(crate) fn opened(alloc: Global, limit: u32, specs: &[ProcSpec]) -> Result<Procs, NoMemory>
    requires room { length specs.now ≤ limit }
    requires few { limit ≤ 1024 }
    ensures { IfOk result (λ p. p ≡ opened specs.now limit) }
{
    let mut procs = Procs::new(alloc, limit)?;
    for spec in specs {
        match procs.add(spec) {
            Some(_) => {}
            None => unreachable!(),
        }
    }
    Ok(procs)
}
