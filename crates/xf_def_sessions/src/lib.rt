//! What a session is: its state, its run, what two slots stand for, what opening them gives, and what one image fixes of it. Definitions and laws.
#![tactic(auto)]

ghost use Rattle.xf_def_sessions.specs.Counts.{FormsAreFilled, RunsCount};
ghost use Rattle.xf_def_sessions.specs.Finding.{FindingLaws};
ghost use Rattle.xf_def_sessions.specs.Left.{LeftLaws, RestStands, MomentsStand, LeftStands, SettledStands};
ghost use Rattle.xf_def_sessions.specs.OneImage.{OneImageLaws};
ghost use Rattle.xf_def_sessions.specs.Usual.{usual};

use xf_disk::Disk;

/// The documents of the forms that are loaded have no empty texts. This tells contracts so, and does nothing.
pub fn usual_forms_are_filled()
    ensures { FormsAreFilled usual }
{}

/// Each item of a session counts as one accepted event. This tells contracts so, and does nothing.
pub fn items_are_counted()
    ensures { RunsCount }
{}

/// No image stands for two lists of items. This tells contracts so, and does nothing.
pub fn images_fix_sessions()
    ensures { OneImageLaws }
{}

/// Opening finds the session, where events of states with the same data go alike. This tells contracts so, and does nothing.
pub fn opening_finds_sessions()
    ensures { FindingLaws }
{}

/// What is written stands for what the session took. This tells contracts so, and does nothing.
pub fn written_journals_stand()
    ensures { LeftLaws }
{}

/// What one call leaves on a disk is what the next one needs. This tells contracts so, and does nothing.
pub fn disks_go_on<D: Disk>()
    ensures rest { RestStands D.seen D.may_leave }
    ensures moments { MomentsStand D.moment D.left_since }
    ensures left { LeftStands D.moment D.may_leave D.left_since }
    ensures settled { SettledStands D.seen D.may_leave }
{}
