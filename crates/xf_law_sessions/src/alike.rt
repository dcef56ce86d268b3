//! The premise of sessions: events over states that cannot be told apart end alike, where what they leave is at rest. Each function does nothing: its
//! contract is a law.
ghost use Rattle.xf_law_sessions.specs.Alike.Rested.{AlikeLaws};
ghost use Rattle.xf_law_sessions.specs.Alike.Whole.{WholeLaws};

/// Where each accepted event ends at rest, states that cannot be told apart go alike; the forms that are loaded are as this asks.
pub fn sessions_go_alike()
    ensures { AlikeLaws }
{}

/// Rest is what is told of each accepted event and each start, and the parts that are not told yet.
pub fn rest_has_parts()
    ensures { WholeLaws }
{}
