use crate::bytes::Bytes;
use crate::call::Call;
use crate::ids::Pid;
use std::marker::Model;

/// An entry of a history: a call, with who made it and where.
#[derive(Clone, Copy)]
pub struct Entry<'a> {
    /// The seat that made it.
    pub seat: u32,
    /// The line of the script that it comes from.
    pub line: u32,
    pub pid: Pid,
    pub call: Call<'a>,
}

/// An entry of a history with bytes of its own. Contracts alone name it, and see it as they see an `Entry`.
#[derive(Drop)]
pub struct Kept {
    seat: u32,
    line: u32,
    pid: Pid,
    call: Call<'static>,
    bytes: Bytes,
}

impl Model for Kept {
    ghost use Rattle.ix_model.specs.history.Events.{Event};
    ghost use Rattle.std.specs.Coded.{codes};
    ghost use Rattle.ix_label.specs.contracts.label.Label as label_type;

    ghost Value = { Event };

    ghost coded = { Prim.hlevel (codes, label_type.the_row.coded) };

    ghost use Rattle.ix_model.specs.history.Calls.{op_of, with_bytes};

    ghost view = { λ k. record { seat = k.seat; line = k.line; pid = k.pid.0; op = with_bytes k.bytes (op_of k.call) } };
}
