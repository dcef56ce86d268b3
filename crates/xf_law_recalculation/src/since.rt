//! The laws on which a recalculation rests that evaluates only the pertinent entries: what it passes over is what it would have computed.
//! Each function does nothing: its contract is a law.
ghost use Rattle.xf_law_recalculation.specs.Since.Pertinent.{PertinentText, PertinentWritten, PertinentTruth, PassedTurn, SinceAnew, AloneStands, EntriesStand};

/// A calculate that is not pertinent has the text that stands, whichever pertinent ones were written; so that the settled nodes are those
/// where the contents of these alone were written, and what is not pertinent has over them the truth that was kept.
pub fn not_pertinent()
    ensures text { PertinentText }
    ensures written { PertinentWritten }
    ensures truth { PertinentTruth }
    ensures turn { PassedTurn }
{}

/// After a recalculation all that these laws ask of the one before is so.
pub fn since_anew()
    ensures { SinceAnew }
{}

/// Where no tree is detached, nodes of entries stand in instances.
pub fn none_detached()
    ensures stands { AloneStands }
    ensures entries { EntriesStand }
{}
