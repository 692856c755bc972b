//! Edges of the calls, by the machine's definitions alone: what is easily taken otherwise. These functions do nothing:
//! each states what a short history gives on a small machine.

ghost use Rattle.std.specs.Prelude.{◌≡◌, true};
ghost use Rattle.ix_model.specs.opening.Valid.{is_valid};
ghost use Rattle.ix_worked.specs.Sessions.{Goes, calls, log_of};
ghost use Rattle.ix_worked.specs.short.OnDescriptors.{
  desk,
  reading_nothing,
  writing_into_a_broken_pipe,
  claiming_both,
  closing_a_claimed_end,
  writing_in_the_middle,
  using_numbers_again,
  asking_too_much,
};
ghost use Rattle.ix_worked.specs.short.OnPaths.{
  shelves,
  asking_for_objects,
  unlinking_an_open_file,
  furnished,
  looking_around,
  working_in_a_directory,
  tight,
  sharing_blocks,
  full_with_a_root,
  making_one_name_more,
  freeing_blocks,
  unlinking_one_of_two,
  crowded,
  making_without_room,
  poor,
  asking_without_room,
  attic,
  naming_high,
};
ghost use Rattle.ix_worked.specs.short.OnProcesses.{
  family,
  calling_after_the_end,
  ending_out_of_order,
  ending_with_a_pipe,
  keeping_some,
  house,
  forking_as_it_is,
};
ghost use Rattle.ix_worked.specs.short.OnLabels.{
  levels,
  freezing,
  no_lines,
  acting_without_a_line,
  officers,
  acting,
  acting_log,
  heights,
  finding_what_is_high,
  low_house,
  setting_high,
  pair,
  looking_into_an_empty_pipe,
  chest,
  making_names_high,
  raising_ceilings,
  raising_ceilings_log,
  two_steps,
  walking_too_high,
  program,
  handing_on,
  handing_on_log,
  stiff_house,
  moving_what_is_frozen,
  towers,
  looking_in_vain,
  reading_each_line,
};
ghost use Rattle.ix_worked.specs.short.OnEntries.{
  shared_desk,
  seeking_high,
  writing_high,
  writing_high_log,
  cutting_high,
  reading_nothing_high,
  draining_high,
};

/// A read of no bytes is answered as any other: there may be more while the other end is held.
#[tactic(auto, using(crate::proofs::Fitting::desk_fits, crate::proofs::short::reading_nothing_ran))]
pub fn a_read_of_nothing_asks_too()
    ensures valid { is_valid desk ≡ true }
    ensures goes { Goes desk reading_nothing }
{}

/// That a pipe is broken is looked at before that it is full.
#[tactic(auto, using(crate::proofs::Fitting::desk_fits, crate::proofs::short::writing_into_a_broken_pipe_ran))]
pub fn a_broken_pipe_is_told_before_a_full_one()
    ensures valid { is_valid desk ≡ true }
    ensures goes { Goes desk writing_into_a_broken_pipe }
{}

/// Who has both ends makes the path whole alone. What was in it then is gone; a claim on a path that is whole already
/// empties nothing.
#[tactic(auto, using(crate::proofs::Fitting::desk_fits, crate::proofs::short::claiming_both_ran))]
pub fn a_path_is_emptied_as_it_becomes_whole()
    ensures valid { is_valid desk ≡ true }
    ensures goes { Goes desk claiming_both }
{}

/// A claim lasts as long as its claimant has a descriptor on the end, by whatever copy.
#[tactic(auto, using(crate::proofs::Fitting::desk_fits, crate::proofs::short::closing_a_claimed_end_ran))]
pub fn a_claim_lasts_as_long_as_a_descriptor_on_its_end()
    ensures valid { is_valid desk ≡ true }
    ensures goes { Goes desk closing_a_claimed_end }
{}

/// A write stands at the offset and leaves what is around it. A cut leaves the offset, and what it adds is zeros. A
/// write of no bytes leaves the length.
#[tactic(auto, using(crate::proofs::Fitting::desk_fits, crate::proofs::short::writing_in_the_middle_ran))]
pub fn a_write_stands_at_its_offset()
    ensures valid { is_valid desk ≡ true }
    ensures goes { Goes desk writing_in_the_middle }
{}

/// A new open entry begins at offset 0, and a new pipe is empty, whatever stood at their numbers before.
#[tactic(auto, using(crate::proofs::Fitting::desk_fits, crate::proofs::short::using_numbers_again_ran))]
pub fn what_is_new_begins_anew()
    ensures valid { is_valid desk ≡ true }
    ensures goes { Goes desk using_numbers_again }
{}

/// A file is told with its length and how many names it has; a directory has length 0 and one name. Names are listed
/// in order of making, that of a further file system first.
#[tactic(auto, using(crate::proofs::Fitting::shelves_fits, crate::proofs::short::asking_for_objects_ran))]
pub fn an_object_is_told_with_its_size_and_links()
    ensures valid { is_valid shelves ≡ true }
    ensures goes { Goes shelves asking_for_objects }
{}

/// A file whose last name is removed lasts while it is open, and then its number is the lowest free one. What is made
/// under it is empty.
#[tactic(auto, using(crate::proofs::Fitting::shelves_fits, crate::proofs::short::unlinking_an_open_file_ran))]
pub fn a_file_lasts_while_it_is_open()
    ensures valid { is_valid shelves ≡ true }
    ensures goes { Goes shelves unlinking_an_open_file }
{}

/// A machine begins with what its config describes: each file and directory at the lowest free number of its file
/// system, under its name, with its bytes.
#[tactic(auto, using(crate::proofs::Fitting::furnished_fits, crate::proofs::short::looking_around_ran))]
pub fn a_machine_begins_as_it_is_described()
    ensures valid { is_valid furnished ≡ true }
    ensures goes { Goes furnished looking_around }
{}

/// A relative path begins at the working directory. That a directory has names is told before that it is in use.
#[tactic(auto, using(crate::proofs::Fitting::shelves_fits, crate::proofs::short::working_in_a_directory_ran))]
pub fn a_relative_path_begins_at_the_working_directory()
    ensures valid { is_valid shelves ≡ true }
    ensures goes { Goes shelves working_in_a_directory }
{}

/// The files of a file system share its blocks, and those of another count for nothing.
#[tactic(auto, using(crate::proofs::Fitting::tight_fits, crate::proofs::short::sharing_blocks_ran))]
pub fn files_share_the_blocks_of_their_file_system()
    ensures valid { is_valid tight ≡ true }
    ensures goes { Goes tight sharing_blocks }
{}

/// An ended child calls nothing, and has its last label until its parent has waited for it.
#[tactic(auto, using(crate::proofs::Fitting::family_fits, crate::proofs::short::calling_after_the_end_ran))]
pub fn an_ended_child_has_its_label_until_it_is_collected()
    ensures valid { is_valid family ≡ true }
    ensures goes { Goes family calling_after_the_end }
{}

/// Of the children that have ended the one with the lowest pid is collected first.
#[tactic(auto, using(crate::proofs::Fitting::family_fits, crate::proofs::short::ending_out_of_order_ran))]
pub fn the_ended_child_with_the_lowest_pid_comes_first()
    ensures valid { is_valid family ≡ true }
    ensures goes { Goes family ending_out_of_order }
{}

/// To freeze a file affects it: one that is frozen already is frozen again only by who is at or below its label.
#[tactic(auto, using(crate::proofs::Fitting::levels_fits, crate::proofs::short::freezing_ran))]
pub fn what_is_frozen_already_is_frozen_again()
    ensures valid { is_valid levels ≡ true }
    ensures goes { Goes levels freezing }
{}

/// That the log is full is looked at before that something is frozen. Where the log has no line of that number, that
/// is told first.
#[tactic(auto, using(crate::proofs::Fitting::no_lines_fits, crate::proofs::short::acting_without_a_line_ran))]
pub fn a_full_log_is_told_before_a_frozen_mark()
    ensures valid { is_valid no_lines ≡ true }
    ensures goes { Goes no_lines acting_without_a_line }
{}

/// Each act by a privilege is a line of the log, with its labels before and after. What is refused is none, and
/// neither is what needs no privilege.
#[tactic(auto, using(crate::proofs::Fitting::officers_fits, crate::proofs::short::acting_ran, crate::proofs::short::acting_logged))]
pub fn each_act_is_a_line_of_the_log()
    ensures valid { is_valid officers ≡ true }
    ensures goes { Goes officers acting }
    ensures logged { log_of officers (calls acting) ≡ acting_log }
{}

/// To be told what an object is, what a directory holds, and to execute a file is to look at it. Opening it, its
/// label, going to it and setting it are not.
#[tactic(auto, using(crate::proofs::Fitting::heights_fits, crate::proofs::short::finding_what_is_high_ran))]
pub fn some_calls_look_at_what_they_find()
    ensures valid { is_valid heights ≡ true }
    ensures goes { Goes heights finding_what_is_high }
{}

/// A label that is set stays below the ceiling of the file's file system, or of the process, as one that floats.
#[tactic(auto, using(crate::proofs::Fitting::low_house_fits, crate::proofs::short::setting_high_ran))]
pub fn what_is_set_stays_below_its_ceiling()
    ensures valid { is_valid low_house ≡ true }
    ensures goes { Goes low_house setting_high }
{}

/// That a pipe is empty is told at its label, which a write of no bytes raises as any other.
#[tactic(auto, using(crate::proofs::Fitting::pair_fits, crate::proofs::short::looking_into_an_empty_pipe_ran))]
pub fn an_empty_pipe_is_looked_at_too()
    ensures valid { is_valid pair ≡ true }
    ensures goes { Goes pair looking_into_an_empty_pipe }
{}

/// To make a name affects its directory; the file that is made is at bottom. In a frozen directory names are made by
/// who is at or below its label.
#[tactic(auto, using(crate::proofs::Fitting::chest_fits, crate::proofs::short::making_names_high_ran))]
pub fn a_name_affects_its_directory_alone()
    ensures valid { is_valid chest ≡ true }
    ensures goes { Goes chest making_names_high }
{}

/// To set another's ceiling is a line of the log, with the ceilings before and after. To lower the own is none.
#[tactic(auto, using(crate::proofs::Fitting::officers_fits, crate::proofs::short::raising_ceilings_ran, crate::proofs::short::raising_ceilings_logged))]
pub fn a_ceiling_of_another_is_a_line_of_the_log()
    ensures valid { is_valid officers ≡ true }
    ensures goes { Goes officers raising_ceilings }
    ensures logged { log_of officers (calls raising_ceilings) ≡ raising_ceilings_log }
{}

/// What a process alone kept open goes as it ends.
#[tactic(auto, using(crate::proofs::Fitting::family_fits, crate::proofs::short::ending_with_a_pipe_ran))]
pub fn what_it_alone_kept_goes_with_a_process()
    ensures valid { is_valid family ≡ true }
    ensures goes { Goes family ending_with_a_pipe }
{}

/// A child has all descriptors of its parent, none of them, or one under its number.
#[tactic(auto, using(crate::proofs::Fitting::family_fits, crate::proofs::short::keeping_some_ran))]
pub fn a_child_has_the_descriptors_that_it_is_given()
    ensures valid { is_valid family ≡ true }
    ensures goes { Goes family keeping_some }
{}

/// The names of further file systems count among the names that there are in all.
#[tactic(auto, using(crate::proofs::Fitting::full_with_a_root_fits, crate::proofs::short::making_one_name_more_ran))]
pub fn names_of_file_systems_count()
    ensures valid { is_valid full_with_a_root ≡ true }
    ensures goes { Goes full_with_a_root making_one_name_more }
{}

/// The blocks of a file that goes are free again.
#[tactic(auto, using(crate::proofs::Fitting::tight_fits, crate::proofs::short::freeing_blocks_ran))]
pub fn blocks_come_back()
    ensures valid { is_valid tight ≡ true }
    ensures goes { Goes tight freeing_blocks }
{}

/// A file that has two names lasts until both are removed.
#[tactic(auto, using(crate::proofs::Fitting::shelves_fits, crate::proofs::short::unlinking_one_of_two_ran))]
pub fn a_file_lasts_while_it_has_a_name()
    ensures valid { is_valid shelves ≡ true }
    ensures goes { Goes shelves unlinking_one_of_two }
{}

/// A refusal at a ceiling leaves the label as it was, also where a look before it had passed. That a name is missing
/// keeps it raised.
#[tactic(auto, using(crate::proofs::Fitting::two_steps_fits, crate::proofs::short::walking_too_high_ran))]
pub fn a_refused_look_raises_nothing()
    ensures valid { is_valid two_steps ≡ true }
    ensures goes { Goes two_steps walking_too_high }
{}

/// A child has the privileges of its parent, also those that a program has brought, and what it drops its parent
/// keeps. A program is not cut.
#[tactic(auto, using(crate::proofs::Fitting::program_fits, crate::proofs::short::handing_on_ran, crate::proofs::short::handing_on_logged))]
pub fn privileges_pass_to_a_child()
    ensures valid { is_valid program ≡ true }
    ensures goes { Goes program handing_on }
    ensures logged { log_of program (calls handing_on) ≡ handing_on_log }
{}

/// That a descriptor is on a pipe, is claimed or is not open that way is told before that there are too many bytes,
/// and this before that a pipe is broken.
#[tactic(auto, using(crate::proofs::Fitting::desk_fits, crate::proofs::short::asking_too_much_ran))]
pub fn too_many_bytes_are_told_late()
    ensures valid { is_valid desk ≡ true }
    ensures goes { Goes desk asking_too_much }
{}

/// What is wrong with a path is told before that an inode is missing, that before that a name is, and that a name
/// would be on another file system before both.
#[tactic(auto, using(crate::proofs::Fitting::crowded_fits, crate::proofs::short::making_without_room_ran))]
pub fn want_of_room_is_told_last()
    ensures valid { is_valid crowded ≡ true }
    ensures goes { Goes crowded making_without_room }
{}

/// What is asked for is looked at before there is room for it: a directory, a missing name, a descriptor that is
/// none.
#[tactic(auto, using(crate::proofs::Fitting::poor_fits, crate::proofs::short::asking_without_room_ran))]
pub fn what_is_asked_for_is_looked_at_before_room()
    ensures valid { is_valid poor ≡ true }
    ensures goes { Goes poor asking_without_room }
{}

/// That something is frozen is told before that its label would pass a ceiling, and a missing name before a missing
/// capability.
#[tactic(auto, using(crate::proofs::Fitting::stiff_house_fits, crate::proofs::short::moving_what_is_frozen_ran))]
pub fn a_frozen_mark_is_told_before_a_ceiling()
    ensures valid { is_valid stiff_house ≡ true }
    ensures goes { Goes stiff_house moving_what_is_frozen }
{}

/// To link a file affects the directory of the new name, and to remove a directory the one that it goes from. Its name
/// is free again.
#[tactic(auto, using(crate::proofs::Fitting::attic_fits, crate::proofs::short::naming_high_ran))]
pub fn what_is_named_and_removed_affects_its_directory()
    ensures valid { is_valid attic ≡ true }
    ensures goes { Goes attic naming_high }
{}

/// Who is refused for what it found has looked at it, and keeps the label to which that raised it. A link looks along
/// both its paths, and who removes a directory looks at it.
#[tactic(auto, using(crate::proofs::Fitting::towers_fits, crate::proofs::short::looking_in_vain_ran))]
pub fn a_look_is_kept_by_the_refusal_after_it()
    ensures valid { is_valid towers ≡ true }
    ensures goes { Goes towers looking_in_vain }
{}

/// The log has the lines of what needed a privilege, in order, each as it can be read later, and none of what was
/// raised. What is thawed is not frozen.
#[tactic(auto, using(crate::proofs::Fitting::officers_fits, crate::proofs::short::reading_each_line_ran))]
pub fn the_log_is_read_line_by_line()
    ensures valid { is_valid officers ≡ true }
    ensures goes { Goes officers reading_each_line }
{}

/// A child has the label, the ceiling, the mark and the working directory that its parent has then.
#[tactic(auto, using(crate::proofs::Fitting::house_fits, crate::proofs::short::forking_as_it_is_ran))]
pub fn a_child_is_as_its_parent_was()
    ensures valid { is_valid house ≡ true }
    ensures goes { Goes house forking_as_it_is }
{}

/// A seek marks the open entry with the label of who seeks, and one from below doesn't take that away. A read through it
/// floats to the mark; a cut takes no heed of it.
#[tactic(auto, using(crate::proofs::Fitting::shared_desk_fits, crate::proofs::short::seeking_high_ran))]
pub fn a_seek_marks_its_open_entry()
    ensures valid { is_valid shared_desk ≡ true }
    ensures goes { Goes shared_desk seeking_high }
{}

/// A write marks the open entry too. The mark stays where the file's label is lowered, and raises the file again with the
/// next write through it, and who reads through it.
#[tactic(auto, using(crate::proofs::Fitting::shared_desk_fits, crate::proofs::short::writing_high_ran, crate::proofs::short::writing_high_logged))]
pub fn a_write_marks_its_open_entry()
    ensures valid { is_valid shared_desk ≡ true }
    ensures goes { Goes shared_desk writing_high }
    ensures logged { log_of shared_desk (calls writing_high) ≡ writing_high_log }
{}

/// A cut affects the file, and leaves the open entry without a mark. Neither has one that is opened anew while the file
/// is above.
#[tactic(auto, using(crate::proofs::Fitting::shared_desk_fits, crate::proofs::short::cutting_high_ran))]
pub fn a_cut_marks_no_open_entry()
    ensures valid { is_valid shared_desk ≡ true }
    ensures goes { Goes shared_desk cutting_high }
{}

/// A read that gives nothing marks the open entry as any other. One that is opened anew has no mark.
#[tactic(auto, using(crate::proofs::Fitting::shared_desk_fits, crate::proofs::short::reading_nothing_high_ran))]
pub fn a_read_of_nothing_marks_its_open_entry()
    ensures valid { is_valid shared_desk ≡ true }
    ensures goes { Goes shared_desk reading_nothing_high }
{}

/// The open entries of a pipe are never marked: who takes bytes from it tells nothing by where it has come to.
#[tactic(auto, using(crate::proofs::Fitting::shared_desk_fits, crate::proofs::short::draining_high_ran))]
pub fn a_pipe_has_no_mark()
    ensures valid { is_valid shared_desk ≡ true }
    ensures goes { Goes shared_desk draining_high }
{}
