//! Worked sessions: what each of them shows, by the machine's definitions alone. These functions do nothing: each states
//! what a history from a config gives, entry by entry, and the labels and the audit log at its end.
#![tactic(auto)]

pub mod configs;
pub mod edges;
pub mod refusals;
pub mod told_up;
pub mod two_runs;

ghost use Rattle.std.specs.Prelude.{◌≡◌, ℕ, true, [], ◌∷◌, codes, take};
ghost use Rattle.ix_model.specs.opening.Valid.{is_valid};
ghost use Rattle.ix_worked.specs.{Sessions.{shown, log_of}, floating.Untouched.{untouched, no_entries, untouched_shows}, Scripts.{three, three_and_five}};
ghost use Rattle.ix_worked.specs.{floating.Floating.{reading_up, reading, floating_shows, stopped_shows}, privileges.Login.{office, asking, asking_shows}};
ghost use Rattle.ix_worked.specs.{floating.FileCeiling.{low_files, writing_down, writing_down_shows}, floating.TwoLevels.{two_levels, writing, writing_shows}};
ghost use Rattle.ix_worked.specs.{floating.LooksAnew.{held_low, reading_twice, reading_twice_shows}, files.SharedEntry.{one_file, sharing, sharing_shows}};
ghost use Rattle.ix_worked.specs.{floating.FrozenFile.{a_frozen_file, writing_to_it, writing_to_it_shows}, pipes.FullPipe.{one_process, piping, piping_shows}};
ghost use Rattle.ix_worked.specs.{floating.HighDirectory.{a_high_directory, looking_into_it, looking_into_it_shows}, pipes.Claims.{claiming, claiming_shows}};
ghost use Rattle.ix_worked.specs.{privileges.Downgrading.{one_line, lowering, lowering_shows}, privileges.Executing.{programs, executing, executing_shows}};
ghost use Rattle.ix_worked.specs.{privileges.ReadingTheLog.{two_lines, reading_the_log, reading_the_log_shows}, pipes.Copying.{copying, copying_shows}};
ghost use Rattle.ix_worked.specs.{privileges.TrustedFile.{writing_a_program, writing_a_program_shows}, files.FewBlocks.{two_blocks, filling, filling_shows}};
ghost use Rattle.ix_worked.specs.{files.Trees.{two_file_systems, naming, naming_shows}, processes.Inheriting.{letters, inheriting, inheriting_shows}};
ghost use Rattle.ix_worked.specs.{processes.Waiting.{a_secret, waiting, waiting_shows}, processes.WaitingLow.{waiting_low, waiting_low_shows}};
ghost use Rattle.ix_worked.specs.processes.SharedOffset.{one_shared, below_seven, reading_on, reading_on_shows, writing_on, writing_on_shows, writing_frozen};
ghost use Rattle.ix_worked.specs.processes.SharedOffset.{writing_frozen_shows};

/// Where nothing is called there is the root, without categories, and nothing else.
#[tactic(auto, using(crate::proofs::Fitting::untouched_fits, crate::proofs::worked::is_untouched))]
pub fn an_untouched_machine_is_its_root()
    ensures valid { is_valid untouched ≡ true }
    ensures shown { shown untouched no_entries ≡ untouched_shows }
{}

/// A reader floats to the label of the file that it reads, where that is exactly its ceiling.
#[tactic(auto, using(crate::proofs::Fitting::up_to_three_fits, crate::proofs::worked::floats_up))]
pub fn floats_to_its_ceiling()
    ensures valid { is_valid (reading_up three) ≡ true }
    ensures shown { shown (reading_up three) reading ≡ floating_shows }
{}

/// A reader isn't let past its ceiling: the read is refused, and its label stays.
#[tactic(auto, using(crate::proofs::Fitting::up_to_both_fits, crate::proofs::worked::stops_there))]
pub fn is_stopped_by_its_ceiling()
    ensures valid { is_valid (reading_up three_and_five) ≡ true }
    ensures shown { shown (reading_up three_and_five) reading ≡ stopped_shows }
{}

/// A file isn't raised past the ceiling of its file system: the write is refused, and label and bytes stay.
#[tactic(auto, using(crate::proofs::Fitting::low_files_fits, crate::proofs::worked::written_down))]
pub fn a_file_stops_at_its_file_systems_ceiling()
    ensures valid { is_valid low_files ≡ true }
    ensures shown { shown low_files writing_down ≡ writing_down_shows }
{}

/// A high process raises the file that it writes. A low one reads on at its level elsewhere, and floats once it reads
/// that file.
#[tactic(auto, using(crate::proofs::Fitting::two_levels_fits, crate::proofs::worked::two_as))]
pub fn a_reader_floats_to_a_raised_file()
    ensures valid { is_valid two_levels ≡ true }
    ensures shown { shown two_levels (writing (codes "AA")) ≡ writing_shows (codes "AA") }
{}

/// The same with other bytes: they show in the read that floats, and nowhere else. So it is for any two bytes.
#[tactic(auto, using(crate::proofs::worked::two_bs, crate::proofs::worked::same_low, crate::proofs::TwoBytes::two_bytes))]
pub fn other_bytes_change_high_reads_alone()
    ensures shown { shown two_levels (writing (codes "BB")) ≡ writing_shows (codes "BB") }
    ensures low { take 5 (shown two_levels (writing (codes "BB"))).lines ≡ take 5 (shown two_levels (writing (codes "AA"))).lines }
    ensures any { (a b : ℕ) → shown two_levels (writing (a ∷ b ∷ [])) ≡ writing_shows (a ∷ b ∷ []) }
{}

/// Each read looks at the file's label anew: one that passed before the file was raised doesn't pass after.
#[tactic(auto, using(crate::proofs::Fitting::held_low_fits, crate::proofs::worked::raised_between))]
pub fn each_read_looks_anew()
    ensures valid { is_valid held_low ≡ true }
    ensures shown { shown held_low reading_twice ≡ reading_twice_shows }
{}

/// A frozen file is written by a process at its label, and not by one above it, which would raise it.
#[tactic(auto, using(crate::proofs::Fitting::a_frozen_file_fits, crate::proofs::worked::frozen_stays))]
pub fn a_frozen_file_is_not_raised()
    ensures valid { is_valid a_frozen_file ≡ true }
    ensures shown { shown a_frozen_file writing_to_it ≡ writing_to_it_shows }
{}

/// A label is lowered by a process that has the capability and the licence, and only where the log has room for it.
#[tactic(auto, using(crate::proofs::Fitting::one_line_fits, crate::proofs::worked::lowered_once, crate::proofs::worked::logged_once))]
pub fn a_lowering_needs_both_and_a_line()
    ensures valid { is_valid one_line ≡ true }
    ensures shown { shown one_line lowering ≡ lowering_shows }
    ensures logged { log_of one_line lowering ≡ lowering_shows.log }
{}

/// The audit log is read with the privilege for it. Each reading is a line of the log itself, and where that has no
/// room it is refused.
#[tactic(auto, using(crate::proofs::Fitting::two_lines_fits, crate::proofs::worked::log_read, crate::proofs::worked::readings_logged))]
pub fn reading_the_log_is_logged()
    ensures valid { is_valid two_lines ≡ true }
    ensures shown { shown two_lines reading_the_log ≡ reading_the_log_shows }
    ensures logged { log_of two_lines reading_the_log ≡ reading_the_log_shows.log }
{}

/// A program that is executed brings its capabilities and licences, and the next one takes them away.
#[tactic(auto, using(crate::proofs::Fitting::programs_fits, crate::proofs::worked::executed, crate::proofs::worked::thawing_logged))]
pub fn a_program_brings_its_privileges()
    ensures valid { is_valid programs ≡ true }
    ensures shown { shown programs executing ≡ executing_shows }
    ensures logged { log_of programs executing ≡ executing_shows.log }
{}

/// A file that carries privileges is opened for writing, and not written.
#[tactic(auto, using(crate::proofs::Fitting::programs_fits, crate::proofs::worked::trusted_stays))]
pub fn a_trusted_file_is_not_written()
    ensures valid { is_valid programs ≡ true }
    ensures shown { shown programs writing_a_program ≡ writing_a_program_shows }
{}

/// A copy of a descriptor shares its open entry, which lasts as long as one of them, and so the offset.
#[tactic(auto, using(crate::proofs::Fitting::one_file_fits, crate::proofs::worked::shared))]
pub fn a_copy_of_a_descriptor_shares_its_offset()
    ensures valid { is_valid one_file ≡ true }
    ensures shown { shown one_file sharing ≡ sharing_shows }
{}

/// A write that needs more blocks than there are is refused. What is cut is gone, and what is skipped reads as zeros.
#[tactic(auto, using(crate::proofs::Fitting::two_blocks_fits, crate::proofs::worked::filled_up))]
pub fn blocks_run_out_and_gaps_are_zeros()
    ensures valid { is_valid two_blocks ≡ true }
    ensures shown { shown two_blocks filling ≡ filling_shows }
{}

/// A child shares its parent's open entries: it reads on where the parent stopped, and keeps them when the parent
/// closes.
#[tactic(auto, using(crate::proofs::Fitting::letters_fits, crate::proofs::worked::inherited))]
pub fn a_child_shares_the_offset()
    ensures valid { is_valid letters ≡ true }
    ensures shown { shown letters inheriting ≡ inheriting_shows }
{}

/// A parent that waits floats to the label of its ended child, and gets the status.
#[tactic(auto, using(crate::proofs::Fitting::a_secret_fits, crate::proofs::worked::waited_for))]
pub fn a_parent_floats_to_its_child()
    ensures valid { is_valid a_secret ≡ true }
    ensures shown { shown a_secret waiting ≡ waiting_shows }
{}

/// A parent whose ceiling is below its ended child doesn't get the status, and the child's record stays. To lower the
/// own ceiling needs no privilege, and is not logged.
#[tactic(auto, using(crate::proofs::Fitting::a_secret_fits, crate::proofs::worked::held_low, crate::proofs::worked::lowering_logs_nothing))]
pub fn a_parent_below_its_child_is_refused()
    ensures valid { is_valid a_secret ≡ true }
    ensures shown { shown a_secret waiting_low ≡ waiting_low_shows }
    ensures logged { log_of a_secret waiting_low ≡ waiting_low_shows.log }
{}

/// Directories and files are made and removed. No name leads to another file system, no directory goes that has
/// names, and each name that is made or removed affects its directory.
#[tactic(auto, using(crate::proofs::Fitting::two_file_systems_fits, crate::proofs::worked::named))]
pub fn names_come_and_go()
    ensures valid { is_valid two_file_systems ≡ true }
    ensures shown { shown two_file_systems naming ≡ naming_shows }
{}

/// One who asks for a name that isn't there floats to the label of the directory that lacks it.
#[tactic(auto, using(crate::proofs::Fitting::a_high_directory_fits, crate::proofs::worked::looked_into))]
pub fn a_missing_name_is_told_at_its_directorys_label()
    ensures valid { is_valid a_high_directory ≡ true }
    ensures shown { shown a_high_directory looking_into_it ≡ looking_into_it_shows }
{}

/// A pipe takes a write whole or refuses it, answers that there may be more as long as its other end is held, and
/// breaks once it is let go.
#[tactic(auto, using(crate::proofs::Fitting::one_process_fits, crate::proofs::worked::piped_through))]
pub fn a_pipe_fills_and_breaks()
    ensures valid { is_valid one_process ≡ true }
    ensures shown { shown one_process piping ≡ piping_shows }
{}

/// A pipe of which two processes have claimed the ends is a whole path: a third is refused, and it is whole no more
/// once one of the two ends.
#[tactic(auto, using(crate::proofs::Fitting::one_process_fits, crate::proofs::worked::claimed_whole))]
pub fn a_path_is_whole_between_two()
    ensures valid { is_valid one_process ≡ true }
    ensures shown { shown one_process claiming ≡ claiming_shows }
{}

/// What is read of a file is written into a pipe, and read at its other end.
#[tactic(auto, using(crate::proofs::Fitting::one_file_fits, crate::proofs::worked::copied))]
pub fn a_copy_goes_through_a_pipe()
    ensures valid { is_valid one_file ≡ true }
    ensures shown { shown one_file copying ≡ copying_shows }
{}

/// A server forks a process for a user who asked over a whole path, gives it a ceiling and licences, and tells so;
/// another server grants a licence to who has floated, and floats too. The grants and the lowering are logged, and
/// nothing else is.
#[tactic(auto, using(crate::proofs::Fitting::office_fits, crate::proofs::worked::logged_in, crate::proofs::worked::grants_logged))]
pub fn servers_act_for_users_over_whole_paths()
    ensures valid { is_valid office ≡ true }
    ensures shown { shown office asking ≡ asking_shows }
    ensures logged { log_of office asking ≡ asking_shows.log }
{}

/// A parent that reads on where its high child stopped, through the open entry that both have, floats to the child's
/// label.
#[tactic(auto, using(crate::proofs::Fitting::one_shared_fits, crate::proofs::worked::read_on))]
pub fn a_parent_floats_where_its_child_has_read()
    ensures valid { is_valid one_shared ≡ true }
    ensures shown { shown one_shared reading_on ≡ reading_on_shows }
{}

/// A parent that writes there stays where it is, and raises the file to the child's label.
#[tactic(auto, using(crate::proofs::worked::written_on))]
pub fn a_file_is_raised_where_a_high_child_has_read()
    ensures shown { shown one_shared writing_on ≡ writing_on_shows }
{}

/// Where the file is frozen such a write is refused.
#[tactic(auto, using(crate::proofs::Fitting::below_seven_fits, crate::proofs::worked::refused_there))]
pub fn a_frozen_file_is_not_written_where_a_high_child_has_read()
    ensures valid { is_valid below_seven ≡ true }
    ensures shown { shown below_seven writing_frozen ≡ writing_frozen_shows }
{}
