//! The laws of isolation. These functions do nothing: each states a law, which is proved.
ghost use Rattle.std.specs.Prelude.{ℕ, List};
ghost use Rattle.ix_label.specs.Category.{Categories};
ghost use Rattle.ix_model.specs.{world.Naming.{PathOf}, declared.{call.{Mode.{Mode}, Keep.{Keep}}, privs.PrivSet.{PrivSet}}};
ghost use Rattle.ix_model.specs.history.Events as op;
ghost use Rattle.ix_iso.specs.{Configs.{ConfigsOpenAlike}, Forms.{FormsStay}};
ghost use Rattle.ix_iso.specs.Laws.{KeepShape, KeepAlike, Isolation, LoweringsAreLogged, LoweringsStayLogged, OutlinesDecideReplies, IsolationInLength};
ghost use Rattle.ix_iso.specs.Laws.{MostCallsGoByShape};

// ---- equal shapes

/// Two worlds of one shape are so after CreateAt.
#[tactic(auto, using(crate::proofs::Shapes::shape_same))]
pub fn shape_step_create_at()
    ensures law { (path : PathOf) → KeepShape (op.CreateAt path) (op.CreateAt path) }
{}

/// Two worlds of one shape are so after OpenAt.
#[tactic(auto, using(crate::proofs::Shapes::shape_same))]
pub fn shape_step_open_at()
    ensures law { (path : PathOf) (mode : Mode) → KeepShape (op.OpenAt path mode) (op.OpenAt path mode) }
{}

/// Two worlds of one shape are so after ReadFd.
#[tactic(auto, using(crate::proofs::Shapes::shape_same))]
pub fn shape_step_read_fd()
    ensures law { (fd count : ℕ) → KeepShape (op.ReadFd fd count) (op.ReadFd fd count) }
{}

/// Two worlds of one shape are so after WriteFd, whatever bytes are written in each.
#[tactic(auto, using(crate::proofs::Shapes::shape_write))]
pub fn shape_step_write_fd()
    ensures law { (fd : ℕ) (a b : List ℕ) → KeepShape (op.WriteFd fd a) (op.WriteFd fd b) }
{}

/// Two worlds of one shape are so after CutFd.
#[tactic(auto, using(crate::proofs::Shapes::shape_same))]
pub fn shape_step_cut_fd()
    ensures law { (fd len : ℕ) → KeepShape (op.CutFd fd len) (op.CutFd fd len) }
{}

/// Two worlds of one shape are so after SeekFd.
#[tactic(auto, using(crate::proofs::Shapes::shape_same))]
pub fn shape_step_seek_fd()
    ensures law { (fd offset : ℕ) → KeepShape (op.SeekFd fd offset) (op.SeekFd fd offset) }
{}

/// Two worlds of one shape are so after DupFd.
#[tactic(auto, using(crate::proofs::Shapes::shape_same))]
pub fn shape_step_dup_fd()
    ensures law { (fd : ℕ) → KeepShape (op.DupFd fd) (op.DupFd fd) }
{}

/// Two worlds of one shape are so after CloseFd.
#[tactic(auto, using(crate::proofs::Shapes::shape_same))]
pub fn shape_step_close_fd()
    ensures law { (fd : ℕ) → KeepShape (op.CloseFd fd) (op.CloseFd fd) }
{}

/// Two worlds of one shape are so after MakePipe.
#[tactic(auto, using(crate::proofs::Shapes::shape_same))]
pub fn shape_step_make_pipe()
    ensures law { KeepShape op.MakePipe op.MakePipe }
{}

/// Two worlds of one shape are so after MakeDir.
#[tactic(auto, using(crate::proofs::Shapes::shape_same))]
pub fn shape_step_make_dir()
    ensures law { (path : PathOf) → KeepShape (op.MakeDir path) (op.MakeDir path) }
{}

/// Two worlds of one shape are so after LinkAt.
#[tactic(auto, using(crate::proofs::Shapes::shape_same))]
pub fn shape_step_link_at()
    ensures law { (target path : PathOf) → KeepShape (op.LinkAt target path) (op.LinkAt target path) }
{}

/// Two worlds of one shape are so after UnlinkAt.
#[tactic(auto, using(crate::proofs::Shapes::shape_same))]
pub fn shape_step_unlink_at()
    ensures law { (path : PathOf) → KeepShape (op.UnlinkAt path) (op.UnlinkAt path) }
{}

/// Two worlds of one shape are so after RemoveDir.
#[tactic(auto, using(crate::proofs::Shapes::shape_same))]
pub fn shape_step_remove_dir()
    ensures law { (path : PathOf) → KeepShape (op.RemoveDir path) (op.RemoveDir path) }
{}

/// Two worlds of one shape are so after ChangeDir.
#[tactic(auto, using(crate::proofs::Shapes::shape_same))]
pub fn shape_step_change_dir()
    ensures law { (path : PathOf) → KeepShape (op.ChangeDir path) (op.ChangeDir path) }
{}

/// Two worlds of one shape are so after StatAt.
#[tactic(auto, using(crate::proofs::Shapes::shape_same))]
pub fn shape_step_stat_at()
    ensures law { (path : PathOf) → KeepShape (op.StatAt path) (op.StatAt path) }
{}

/// Two worlds of one shape are so after ListAt.
#[tactic(auto, using(crate::proofs::Shapes::shape_same))]
pub fn shape_step_list_at()
    ensures law { (path : PathOf) (index : ℕ) → KeepShape (op.ListAt path index) (op.ListAt path index) }
{}

/// Two worlds of one shape are so after Fork.
#[tactic(auto, using(crate::proofs::Shapes::shape_same))]
pub fn shape_step_fork()
    ensures law { (keep : Keep) → KeepShape (op.Fork keep) (op.Fork keep) }
{}

/// Two worlds of one shape are so after Exec.
#[tactic(auto, using(crate::proofs::Shapes::shape_same))]
pub fn shape_step_exec()
    ensures law { (path : PathOf) → KeepShape (op.Exec path) (op.Exec path) }
{}

/// Two worlds of one shape are so after Exit, whatever status is given in each.
#[tactic(auto, using(crate::proofs::Shapes::shape_exit))]
pub fn shape_step_exit()
    ensures law { (a b : ℕ) → KeepShape (op.Exit a) (op.Exit b) }
{}

/// Two worlds of one shape are so after WaitChild.
#[tactic(auto, using(crate::proofs::Shapes::shape_same))]
pub fn shape_step_wait_child()
    ensures law { KeepShape op.WaitChild op.WaitChild }
{}

/// Two worlds of one shape are so after LabelOf.
#[tactic(auto, using(crate::proofs::Shapes::shape_same))]
pub fn shape_step_label_of()
    ensures law { (path : PathOf) → KeepShape (op.LabelOf path) (op.LabelOf path) }
{}

/// Two worlds of one shape are so after SelfLabel.
#[tactic(auto, using(crate::proofs::Shapes::shape_same))]
pub fn shape_step_self_label()
    ensures law { KeepShape op.SelfLabel op.SelfLabel }
{}

/// Two worlds of one shape are so after SetLabel.
#[tactic(auto, using(crate::proofs::Shapes::shape_same))]
pub fn shape_step_set_label()
    ensures law { (path : PathOf) (label : Categories) → KeepShape (op.SetLabel path label) (op.SetLabel path label) }
{}

/// Two worlds of one shape are so after SetSelf.
#[tactic(auto, using(crate::proofs::Shapes::shape_same))]
pub fn shape_step_set_self()
    ensures law { (label : Categories) → KeepShape (op.SetSelf label) (op.SetSelf label) }
{}

/// Two worlds of one shape are so after Freeze.
#[tactic(auto, using(crate::proofs::Shapes::shape_same))]
pub fn shape_step_freeze()
    ensures law { (path : PathOf) → KeepShape (op.Freeze path) (op.Freeze path) }
{}

/// Two worlds of one shape are so after FreezeSelf.
#[tactic(auto, using(crate::proofs::Shapes::shape_same))]
pub fn shape_step_freeze_self()
    ensures law { KeepShape op.FreezeSelf op.FreezeSelf }
{}

/// Two worlds of one shape are so after Thaw.
#[tactic(auto, using(crate::proofs::Shapes::shape_same))]
pub fn shape_step_thaw()
    ensures law { (path : PathOf) → KeepShape (op.Thaw path) (op.Thaw path) }
{}

/// Two worlds of one shape are so after ThawSelf.
#[tactic(auto, using(crate::proofs::Shapes::shape_same))]
pub fn shape_step_thaw_self()
    ensures law { KeepShape op.ThawSelf op.ThawSelf }
{}

/// Two worlds of one shape are so after SetPriv.
#[tactic(auto, using(crate::proofs::Shapes::shape_same))]
pub fn shape_step_set_priv()
    ensures law { (path : PathOf) (cap lic : PrivSet) → KeepShape (op.SetPriv path cap lic) (op.SetPriv path cap lic) }
{}

/// Two worlds of one shape are so after DropLic.
#[tactic(auto, using(crate::proofs::Shapes::shape_same))]
pub fn shape_step_drop_lic()
    ensures law { (set : PrivSet) → KeepShape (op.DropLic set) (op.DropLic set) }
{}

/// Two worlds of one shape are so after GrantLic.
#[tactic(auto, using(crate::proofs::Shapes::shape_same))]
pub fn shape_step_grant_lic()
    ensures law { (target : ℕ) (set : PrivSet) → KeepShape (op.GrantLic target set) (op.GrantLic target set) }
{}

/// Two worlds of one shape are so after SetCeiling.
#[tactic(auto, using(crate::proofs::Shapes::shape_same))]
pub fn shape_step_set_ceiling()
    ensures law { (target : ℕ) (label : Categories) → KeepShape (op.SetCeiling target label) (op.SetCeiling target label) }
{}

/// Two worlds of one shape are so after Pex.
#[tactic(auto, using(crate::proofs::Shapes::shape_same))]
pub fn shape_step_pex()
    ensures law { (fd : ℕ) → KeepShape (op.Pex fd) (op.Pex fd) }
{}

/// Two worlds of one shape are so after Unpex.
#[tactic(auto, using(crate::proofs::Shapes::shape_same))]
pub fn shape_step_unpex()
    ensures law { (fd : ℕ) → KeepShape (op.Unpex fd) (op.Unpex fd) }
{}

/// Two worlds of one shape are so after ReadLog.
#[tactic(auto, using(crate::proofs::Shapes::shape_same))]
pub fn shape_step_read_log()
    ensures law { (index : ℕ) → KeepShape (op.ReadLog index) (op.ReadLog index) }
{}

// ---- alike at a label

/// Two worlds alike at a label are so after CreateAt.
#[tactic(auto, using(crate::proofs::Steps::alike_ops))]
pub fn alike_step_create_at()
    ensures law { (path : PathOf) → KeepAlike (op.CreateAt path) (op.CreateAt path) }
{}

/// Two worlds alike at a label are so after OpenAt.
#[tactic(auto, using(crate::proofs::Steps::alike_ops))]
pub fn alike_step_open_at()
    ensures law { (path : PathOf) (mode : Mode) → KeepAlike (op.OpenAt path mode) (op.OpenAt path mode) }
{}

/// Two worlds alike at a label are so after ReadFd.
#[tactic(auto, using(crate::proofs::Steps::alike_ops))]
pub fn alike_step_read_fd()
    ensures law { (fd count : ℕ) → KeepAlike (op.ReadFd fd count) (op.ReadFd fd count) }
{}

/// Two worlds alike at a label are so after WriteFd, also where a process that isn't low writes other bytes.
#[tactic(auto, using(crate::proofs::Steps::alike_ops))]
pub fn alike_step_write_fd()
    ensures law { (fd : ℕ) (a b : List ℕ) → KeepAlike (op.WriteFd fd a) (op.WriteFd fd b) }
{}

/// Two worlds alike at a label are so after CutFd.
#[tactic(auto, using(crate::proofs::Steps::alike_ops))]
pub fn alike_step_cut_fd()
    ensures law { (fd len : ℕ) → KeepAlike (op.CutFd fd len) (op.CutFd fd len) }
{}

/// Two worlds alike at a label are so after SeekFd.
#[tactic(auto, using(crate::proofs::Steps::alike_ops))]
pub fn alike_step_seek_fd()
    ensures law { (fd offset : ℕ) → KeepAlike (op.SeekFd fd offset) (op.SeekFd fd offset) }
{}

/// Two worlds alike at a label are so after DupFd.
#[tactic(auto, using(crate::proofs::Steps::alike_ops))]
pub fn alike_step_dup_fd()
    ensures law { (fd : ℕ) → KeepAlike (op.DupFd fd) (op.DupFd fd) }
{}

/// Two worlds alike at a label are so after CloseFd.
#[tactic(auto, using(crate::proofs::Steps::alike_ops))]
pub fn alike_step_close_fd()
    ensures law { (fd : ℕ) → KeepAlike (op.CloseFd fd) (op.CloseFd fd) }
{}

/// Two worlds alike at a label are so after MakePipe.
#[tactic(auto, using(crate::proofs::Steps::alike_ops))]
pub fn alike_step_make_pipe()
    ensures law { KeepAlike op.MakePipe op.MakePipe }
{}

/// Two worlds alike at a label are so after MakeDir.
#[tactic(auto, using(crate::proofs::Steps::alike_ops))]
pub fn alike_step_make_dir()
    ensures law { (path : PathOf) → KeepAlike (op.MakeDir path) (op.MakeDir path) }
{}

/// Two worlds alike at a label are so after LinkAt.
#[tactic(auto, using(crate::proofs::Steps::alike_ops))]
pub fn alike_step_link_at()
    ensures law { (target path : PathOf) → KeepAlike (op.LinkAt target path) (op.LinkAt target path) }
{}

/// Two worlds alike at a label are so after UnlinkAt.
#[tactic(auto, using(crate::proofs::Steps::alike_ops))]
pub fn alike_step_unlink_at()
    ensures law { (path : PathOf) → KeepAlike (op.UnlinkAt path) (op.UnlinkAt path) }
{}

/// Two worlds alike at a label are so after RemoveDir.
#[tactic(auto, using(crate::proofs::Steps::alike_ops))]
pub fn alike_step_remove_dir()
    ensures law { (path : PathOf) → KeepAlike (op.RemoveDir path) (op.RemoveDir path) }
{}

/// Two worlds alike at a label are so after ChangeDir.
#[tactic(auto, using(crate::proofs::Steps::alike_ops))]
pub fn alike_step_change_dir()
    ensures law { (path : PathOf) → KeepAlike (op.ChangeDir path) (op.ChangeDir path) }
{}

/// Two worlds alike at a label are so after StatAt.
#[tactic(auto, using(crate::proofs::Steps::alike_ops))]
pub fn alike_step_stat_at()
    ensures law { (path : PathOf) → KeepAlike (op.StatAt path) (op.StatAt path) }
{}

/// Two worlds alike at a label are so after ListAt.
#[tactic(auto, using(crate::proofs::Steps::alike_ops))]
pub fn alike_step_list_at()
    ensures law { (path : PathOf) (index : ℕ) → KeepAlike (op.ListAt path index) (op.ListAt path index) }
{}

/// Two worlds alike at a label are so after Fork.
#[tactic(auto, using(crate::proofs::Steps::alike_ops))]
pub fn alike_step_fork()
    ensures law { (keep : Keep) → KeepAlike (op.Fork keep) (op.Fork keep) }
{}

/// Two worlds alike at a label are so after Exec.
#[tactic(auto, using(crate::proofs::Steps::alike_ops))]
pub fn alike_step_exec()
    ensures law { (path : PathOf) → KeepAlike (op.Exec path) (op.Exec path) }
{}

/// Two worlds alike at a label are so after Exit, also where a process that isn't low gives another status.
#[tactic(auto, using(crate::proofs::Steps::alike_ops))]
pub fn alike_step_exit()
    ensures law { (a b : ℕ) → KeepAlike (op.Exit a) (op.Exit b) }
{}

/// Two worlds alike at a label are so after WaitChild.
#[tactic(auto, using(crate::proofs::Steps::alike_ops))]
pub fn alike_step_wait_child()
    ensures law { KeepAlike op.WaitChild op.WaitChild }
{}

/// Two worlds alike at a label are so after LabelOf.
#[tactic(auto, using(crate::proofs::Steps::alike_ops))]
pub fn alike_step_label_of()
    ensures law { (path : PathOf) → KeepAlike (op.LabelOf path) (op.LabelOf path) }
{}

/// Two worlds alike at a label are so after SelfLabel.
#[tactic(auto, using(crate::proofs::Steps::alike_ops))]
pub fn alike_step_self_label()
    ensures law { KeepAlike op.SelfLabel op.SelfLabel }
{}

/// Two worlds alike at a label are so after SetLabel.
#[tactic(auto, using(crate::proofs::Steps::alike_ops))]
pub fn alike_step_set_label()
    ensures law { (path : PathOf) (label : Categories) → KeepAlike (op.SetLabel path label) (op.SetLabel path label) }
{}

/// Two worlds alike at a label are so after SetSelf.
#[tactic(auto, using(crate::proofs::Steps::alike_ops))]
pub fn alike_step_set_self()
    ensures law { (label : Categories) → KeepAlike (op.SetSelf label) (op.SetSelf label) }
{}

/// Two worlds alike at a label are so after Freeze.
#[tactic(auto, using(crate::proofs::Steps::alike_ops))]
pub fn alike_step_freeze()
    ensures law { (path : PathOf) → KeepAlike (op.Freeze path) (op.Freeze path) }
{}

/// Two worlds alike at a label are so after FreezeSelf.
#[tactic(auto, using(crate::proofs::Steps::alike_ops))]
pub fn alike_step_freeze_self()
    ensures law { KeepAlike op.FreezeSelf op.FreezeSelf }
{}

/// Two worlds alike at a label are so after Thaw.
#[tactic(auto, using(crate::proofs::Steps::alike_ops))]
pub fn alike_step_thaw()
    ensures law { (path : PathOf) → KeepAlike (op.Thaw path) (op.Thaw path) }
{}

/// Two worlds alike at a label are so after ThawSelf.
#[tactic(auto, using(crate::proofs::Steps::alike_ops))]
pub fn alike_step_thaw_self()
    ensures law { KeepAlike op.ThawSelf op.ThawSelf }
{}

/// Two worlds alike at a label are so after SetPriv.
#[tactic(auto, using(crate::proofs::Steps::alike_ops))]
pub fn alike_step_set_priv()
    ensures law { (path : PathOf) (cap lic : PrivSet) → KeepAlike (op.SetPriv path cap lic) (op.SetPriv path cap lic) }
{}

/// Two worlds alike at a label are so after DropLic.
#[tactic(auto, using(crate::proofs::Steps::alike_ops))]
pub fn alike_step_drop_lic()
    ensures law { (set : PrivSet) → KeepAlike (op.DropLic set) (op.DropLic set) }
{}

/// Two worlds alike at a label are so after GrantLic.
#[tactic(auto, using(crate::proofs::Steps::alike_ops))]
pub fn alike_step_grant_lic()
    ensures law { (target : ℕ) (set : PrivSet) → KeepAlike (op.GrantLic target set) (op.GrantLic target set) }
{}

/// Two worlds alike at a label are so after SetCeiling.
#[tactic(auto, using(crate::proofs::Steps::alike_ops))]
pub fn alike_step_set_ceiling()
    ensures law { (target : ℕ) (label : Categories) → KeepAlike (op.SetCeiling target label) (op.SetCeiling target label) }
{}

/// Two worlds alike at a label are so after Pex.
#[tactic(auto, using(crate::proofs::Steps::alike_ops))]
pub fn alike_step_pex()
    ensures law { (fd : ℕ) → KeepAlike (op.Pex fd) (op.Pex fd) }
{}

/// Two worlds alike at a label are so after Unpex.
#[tactic(auto, using(crate::proofs::Steps::alike_ops))]
pub fn alike_step_unpex()
    ensures law { (fd : ℕ) → KeepAlike (op.Unpex fd) (op.Unpex fd) }
{}

/// Two worlds alike at a label are so after ReadLog.
#[tactic(auto, using(crate::proofs::Steps::alike_ops))]
pub fn alike_step_read_log()
    ensures law { (index : ℕ) → KeepAlike (op.ReadLog index) (op.ReadLog index) }
{}

// ---- calls that go by the shape alone

/// All calls but eight neither read nor edit what is held. From worlds of one shape they give equal replies and worlds of one
/// shape, and from worlds alike at a label worlds alike at it, unless a label crosses it.
#[tactic(auto, using(crate::proofs::ByShape::by_shape))]
pub fn alike_by_shape()
    ensures most { MostCallsGoByShape }
{}

// ---- whole histories

/// What two runs have in common whose histories agree at a label, from worlds alike at it: the shapes after each prefix, and
/// the replies but for how many bytes were read or written, sizes and statuses; each entry that is low; the worlds at that
/// label, as long as no entry crosses it; and until then all that a low process is told, bytes and statuses too.
#[tactic(auto, using(crate::proofs::Histories::isolated))]
pub fn isolation()
    ensures isolated { Isolation }
{}

/// Each entry that lowered a label is licensed, and the log ends in its line: downfile or downself, the object or the
/// process, and its label before and after.
pub fn lowered_step()
    ensures logged { LoweringsAreLogged }
{}

/// In every history, each entry that lowered a label is licensed, and its line stands in the log at the end of the history,
/// behind all that the log held before the entry.
pub fn lowerings_stay_logged()
    ensures stand { LoweringsStayLogged }
{}

// ---- with equal lengths

/// From worlds in which bytes and statuses alone differ, two calls that differ in bytes of one length or in a status alone
/// have equal replies but for the bytes of ReadFd and the status in Child, and leave such worlds.
pub fn outlines_decide_replies()
    ensures one { OutlinesDecideReplies }
{}

/// The law of `isolation` where all lengths and offsets are equal: nothing is asked of the replies, lengths and offsets stay
/// equal, and at each place the replies are equal but for the bytes of ReadFd and the status in Child.
pub fn isolation_in_length()
    ensures isolated { IsolationInLength }
{}

// ---- configs

/// Two configs that differ only in the bytes of files not at or below a label open worlds that are alike at it; where these
/// bytes are as many in both, all lengths are equal.
pub fn configs_alike()
    ensures alike { ConfigsOpenAlike }
{}

// ---- the form of labels

/// A history stays in the form of its config and its calls: where these have no category above 255, neither has any label or
/// ceiling after it, nor any that a reply or a line of the log tells.
pub fn form_one()
    ensures stays { FormsStay }
{}
