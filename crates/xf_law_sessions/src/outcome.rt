//! Laws of the data of states at rest: two states of one form with the same data are the same but for the numbers of nodes, and nothing that comes
//! tells them apart. Each function does nothing: its contract is a law.
ghost use Rattle.xf_law_sessions.specs.Outcome.Contents.{TreesTellContents};
ghost use Rattle.xf_law_sessions.specs.Outcome.Events.{EventLaws};
ghost use Rattle.xf_law_sessions.specs.Outcome.Indexes.{IndexesAreFixed};
ghost use Rattle.xf_law_sessions.specs.Outcome.Numbers.{ContentsRenumber};
ghost use Rattle.xf_law_sessions.specs.Outcome.Repeats.{RepeatsInTurn};
ghost use Rattle.xf_law_sessions.specs.Outcome.Same.{DataLaws};
ghost use Rattle.xf_law_sessions.specs.Outcome.Snapshot.{SnapshotLaws};

/// A repeat has its place among the repeats as its number, and those around it have lesser ones.
pub fn repeats_stand_in_turn()
    ensures { RepeatsInTurn }
{}

/// Forests with the same contents one by one are the same but for numbers.
pub fn contents_renumber()
    ensures { ContentsRenumber }
{}

/// The indexes of a state at rest are fixed by their numbers.
pub fn indexes_are_fixed()
    ensures { IndexesAreFixed }
{}

/// The trees of a snapshot give the contents of all nodes.
pub fn trees_tell_contents()
    ensures { TreesTellContents }
{}

/// Events go with a renumbering of the nodes of a state, one after the other.
pub fn events_go_on()
    ensures { EventLaws }
{}

/// What a session keeps of a state, and what a form is adopted over, tells no numbers of nodes.
pub fn snapshots_stay()
    ensures { SnapshotLaws }
{}

/// States at rest of one form with the same data are the same but for numbers, and all events that come have one outcome over both.
pub fn same_data_are_same()
    ensures { DataLaws }
{}
