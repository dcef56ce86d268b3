//! How many numbers nodes have been given. The function does nothing: its contract is a law.
ghost use Rattle.xf_law_sessions.specs.Room.Room.{RoomLaws};

/// What a start and an adoption leave has room for the nodes of all events that come.
pub fn states_have_room()
    ensures { RoomLaws }
{}
