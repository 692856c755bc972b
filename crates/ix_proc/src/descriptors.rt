ghost use Rattle.std.specs.Prelude.{◌≡◌, IsTrue};
ghost use Rattle.ix_model.specs.rows.OnProcesses.{kept_fds};
ghost use Rattle.ix_proc.specs.Table.{keeps};

use ix_model::Keep;

/// The descriptors that a child has.
pub fn kept(keep: Keep, fds: &[Option<u32>; 32]) -> [Option<u32>; 32]
    requires { IsTrue (keeps keep fds.now) }
    ensures { result ≡ kept_fds keep fds.now }
{
    match keep {
        Keep::All => *fds,
        Keep::Nothing => [None; 32],
        Keep::One(fd) => {
            let mut one = [None; 32];
            one[fd.0 as usize] = fds[fd.0 as usize];
            one
        }
    }
}
