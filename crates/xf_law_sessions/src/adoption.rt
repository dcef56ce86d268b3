//! What an adoption leaves of the form machine. The function does nothing: its contract is a law.
ghost use Rattle.xf_law_sessions.specs.Adoption.Adoption.{AdoptionLaws};

/// What an adoption leaves is at rest, but for what is told elsewhere of its trees and its models.
pub fn adoptions_rest()
    ensures { AdoptionLaws }
{}
