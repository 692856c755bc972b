//! Refusals: when each of them comes, by the machine's definitions alone. These functions do nothing: each states what
//! a short history gives on a small machine. The refusals that aren't here come in the worked sessions: NotEmpty,
//! ProcCeiling, FileFrozen, FsCeiling, Trusted, NoCapability, NoLicence, PexHeld, NoSpace, PipeFull, Broken, LogFull, Again
//! and EndOfList.

ghost use Rattle.std.specs.Prelude.{◌≡◌, true};
ghost use Rattle.ix_model.specs.opening.Valid.{is_valid};
ghost use Rattle.ix_worked.specs.Sessions.{Goes};
ghost use Rattle.ix_worked.specs.short.OnDescriptors.{
  desk,
  using_none,
  reading_a_writer,
  writing_a_reader,
  going_too_far,
  claiming_a_file,
  cutting_a_pipe,
  letting_go,
  long_desk,
  using_all,
  opening_all,
  making_pipes,
};
ghost use Rattle.ix_worked.specs.short.OnPaths.{
  shelves,
  seeking,
  looking_into_a_file,
  using_a_directory,
  making_again,
  crossing,
  removing_a_home,
  making_files,
  full,
  making_names,
};
ghost use Rattle.ix_worked.specs.short.OnProcesses.{
  family,
  calling_as_nobody,
  forking_often,
  waiting_for_a_child,
  ending_first,
};
ghost use Rattle.ix_worked.specs.short.OnLabels.{levels, holding_down, setting_labels, setting_ceilings};

/// BadFd: a call on a descriptor that names no open entry is refused, and so is a fork that asks for one.
#[tactic(auto, using(crate::proofs::Fitting::desk_fits, crate::proofs::short::using_none_ran))]
pub fn a_descriptor_that_is_none_is_refused()
    ensures valid { is_valid desk ≡ true }
    ensures goes { Goes desk using_none }
{}

/// NotReadable: what is open for writing alone is not read.
#[tactic(auto, using(crate::proofs::Fitting::desk_fits, crate::proofs::short::reading_a_writer_ran))]
pub fn what_is_not_open_for_reading_is_not_read()
    ensures valid { is_valid desk ≡ true }
    ensures goes { Goes desk reading_a_writer }
{}

/// NotWritable: what is open for reading alone is neither written nor cut.
#[tactic(auto, using(crate::proofs::Fitting::desk_fits, crate::proofs::short::writing_a_reader_ran))]
pub fn what_is_not_open_for_writing_is_not_written()
    ensures valid { is_valid desk ≡ true }
    ensures goes { Goes desk writing_a_reader }
{}

/// TooBig: 4,096 bytes are the most of one read or write, and 1,048,576 the most of a file.
#[tactic(auto, using(crate::proofs::Fitting::desk_fits, crate::proofs::short::going_too_far_ran))]
pub fn too_many_bytes_are_refused()
    ensures valid { is_valid desk ≡ true }
    ensures goes { Goes desk going_too_far }
{}

/// NotPipe: only an end of a pipe is claimed, and let go.
#[tactic(auto, using(crate::proofs::Fitting::desk_fits, crate::proofs::short::claiming_a_file_ran))]
pub fn a_file_is_not_claimed()
    ensures valid { is_valid desk ≡ true }
    ensures goes { Goes desk claiming_a_file }
{}

/// IsPipe: a pipe is not cut, and has no offset.
#[tactic(auto, using(crate::proofs::Fitting::desk_fits, crate::proofs::short::cutting_a_pipe_ran))]
pub fn a_pipe_has_no_length_and_no_offset()
    ensures valid { is_valid desk ≡ true }
    ensures goes { Goes desk cutting_a_pipe }
{}

/// NotClaimed: a claim is let go by who has it, and not by a child that has inherited the descriptor.
#[tactic(auto, using(crate::proofs::Fitting::desk_fits, crate::proofs::short::letting_go_ran))]
pub fn who_has_not_claimed_lets_nothing_go()
    ensures valid { is_valid desk ≡ true }
    ensures goes { Goes desk letting_go }
{}

/// NoFd: a process has 32 descriptors, and a pipe needs two.
#[tactic(auto, using(crate::proofs::Fitting::long_desk_fits, crate::proofs::short::using_all_ran))]
pub fn a_process_has_32_descriptors()
    ensures valid { is_valid long_desk ≡ true }
    ensures goes { Goes long_desk using_all }
{}

/// NoOpen: opening a file needs an open entry, and a pipe two. A copy of a descriptor and a fork need none.
#[tactic(auto, using(crate::proofs::Fitting::desk_fits, crate::proofs::short::opening_all_ran))]
pub fn open_entries_run_out()
    ensures valid { is_valid desk ≡ true }
    ensures goes { Goes desk opening_all }
{}

/// NoInode: a pipe needs a free pipe, and one is free again once both its ends are let go.
#[tactic(auto, using(crate::proofs::Fitting::desk_fits, crate::proofs::short::making_pipes_ran))]
pub fn pipes_run_out()
    ensures valid { is_valid desk ≡ true }
    ensures goes { Goes desk making_pipes }
{}

/// NotFound: a name that is missing is not found, and in front of a name that is to be made neither.
#[tactic(auto, using(crate::proofs::Fitting::shelves_fits, crate::proofs::short::seeking_ran))]
pub fn a_missing_name_is_not_found()
    ensures valid { is_valid shelves ≡ true }
    ensures goes { Goes shelves seeking }
{}

/// NotDir: a name is sought in directories alone, and directories alone are gone to, removed and listed.
#[tactic(auto, using(crate::proofs::Fitting::shelves_fits, crate::proofs::short::looking_into_a_file_ran))]
pub fn what_is_no_directory_is_not_looked_into()
    ensures valid { is_valid shelves ≡ true }
    ensures goes { Goes shelves looking_into_a_file }
{}

/// IsDir: a directory is not opened, linked, unlinked, executed or given privileges. A path of no names leads to one.
#[tactic(auto, using(crate::proofs::Fitting::shelves_fits, crate::proofs::short::using_a_directory_ran))]
pub fn a_directory_is_no_file()
    ensures valid { is_valid shelves ≡ true }
    ensures goes { Goes shelves using_a_directory }
{}

/// Exists: a name that is there is not made again, and a path of no names is always there.
#[tactic(auto, using(crate::proofs::Fitting::shelves_fits, crate::proofs::short::making_again_ran))]
pub fn what_is_there_is_not_made_again()
    ensures valid { is_valid shelves ≡ true }
    ensures goes { Goes shelves making_again }
{}

/// CrossFs: no root is removed, and no name of a file stands on another file system.
#[tactic(auto, using(crate::proofs::Fitting::shelves_fits, crate::proofs::short::crossing_ran))]
pub fn roots_stay_and_links_stay_on_their_file_system()
    ensures valid { is_valid shelves ≡ true }
    ensures goes { Goes shelves crossing }
{}

/// InUse: a directory that is some process's working directory is not removed, by whatever path.
#[tactic(auto, using(crate::proofs::Fitting::shelves_fits, crate::proofs::short::removing_a_home_ran))]
pub fn a_working_directory_is_not_removed()
    ensures valid { is_valid shelves ≡ true }
    ensures goes { Goes shelves removing_a_home }
{}

/// NoInode: what is made needs a free inode of the file system of its directory.
#[tactic(auto, using(crate::proofs::Fitting::shelves_fits, crate::proofs::short::making_files_ran))]
pub fn inodes_run_out()
    ensures valid { is_valid shelves ≡ true }
    ensures goes { Goes shelves making_files }
{}

/// NoEntry: there are so many names in all, and one that is removed makes room for another.
#[tactic(auto, using(crate::proofs::Fitting::full_fits, crate::proofs::short::making_names_ran))]
pub fn names_run_out()
    ensures valid { is_valid full ≡ true }
    ensures goes { Goes full making_names }
{}

/// NoProcess: a pid at which no process lives calls nothing, and no call on it is made. Where it has no record, there
/// is no label.
#[tactic(auto, using(crate::proofs::Fitting::family_fits, crate::proofs::short::calling_as_nobody_ran))]
pub fn who_does_not_live_is_refused()
    ensures valid { is_valid family ≡ true }
    ensures goes { Goes family calling_as_nobody }
{}

/// NoSlot: a record that is not collected takes a slot, and a pid is never used again.
#[tactic(auto, using(crate::proofs::Fitting::family_fits, crate::proofs::short::forking_often_ran))]
pub fn slots_run_out()
    ensures valid { is_valid family ≡ true }
    ensures goes { Goes family forking_often }
{}

/// NoChild: who has no child waits for none. A child that lives is waited for in vain; a grandchild is none.
#[tactic(auto, using(crate::proofs::Fitting::family_fits, crate::proofs::short::waiting_for_a_child_ran))]
pub fn who_has_no_child_waits_for_none()
    ensures valid { is_valid family ≡ true }
    ensures goes { Goes family waiting_for_a_child }
{}

/// ChildrenLive: who has a child, living or not collected, does not end.
#[tactic(auto, using(crate::proofs::Fitting::family_fits, crate::proofs::short::ending_first_ran))]
pub fn who_has_a_child_does_not_end()
    ensures valid { is_valid family ≡ true }
    ensures goes { Goes family ending_first }
{}

/// ProcFrozen: a frozen process is neither raised by what it reads nor set to another label. To its own it may be
/// set.
#[tactic(auto, using(crate::proofs::Fitting::levels_fits, crate::proofs::short::holding_down_ran))]
pub fn a_frozen_process_is_not_raised()
    ensures valid { is_valid levels ≡ true }
    ensures goes { Goes levels holding_down }
{}

/// NotAbove: a label that isn't lowered takes in the caller's, also where it stays as it is.
#[tactic(auto, using(crate::proofs::Fitting::levels_fits, crate::proofs::short::setting_labels_ran))]
pub fn a_label_takes_in_who_sets_it()
    ensures valid { is_valid levels ≡ true }
    ensures goes { Goes levels setting_labels }
{}

/// BelowLabel: a ceiling isn't set below the label of its process. Lowering the own or a child's needs no privilege;
/// raising one does, and so does another's, a grandchild's too.
#[tactic(auto, using(crate::proofs::Fitting::levels_fits, crate::proofs::short::setting_ceilings_ran))]
pub fn no_ceiling_is_below_its_label()
    ensures valid { is_valid levels ≡ true }
    ensures goes { Goes levels setting_ceilings }
{}
