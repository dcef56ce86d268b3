//! The law on which recalculating only what a change can reach rests: two forests that agree on what an expression reads and looks at give
//! it one value, for every static expression. Each function does nothing: its contract is a law.
ghost use Rattle.xf_law_recalculation.specs.Agree.Settles.{CalculatesAgree, SettlesOnce, Settles};
ghost use Rattle.xf_law_recalculation.specs.Agree.Forests.{TwoForestsValue, TwoForests, TwoForestsButNumbers};
ghost use Rattle.xf_law_recalculation.specs.Agree.FormSettles.{FormAgrees, FormSettlesOnce, FormSettles, FormSettable};
ghost use Rattle.xf_law_recalculation.specs.Agree.Evaluated.{EvaluatedText, EvaluatedTruth, EvaluatedLong, EvaluatedPassed, SurroundingsStay, SolidNumbers};
ghost use Rattle.xf_law_recalculation.specs.Agree.Hung.{HungForest, HungText, HungDetached, HungPlaced, HungGrown, HungCopied, HungInstances};
ghost use Rattle.xf_law_recalculation.specs.Agree.InTurn.{InTurnContents, InTurnSettled, InTurnTexts, InTurnDone, InTurnValue, InTurnContent, InTurnStands, InTurnPassed, InTurnFitting, FormInTurn};

/// Two forests that agree on what a covered expression reads and looks at, texts counted, give it one value, and one text.
pub fn two_forests()
    ensures value { TwoForestsValue }
    ensures text { TwoForests }
    ensures but_numbers { TwoForestsButNumbers }
{}

/// Data that hold the same contents at the nodes that a static calculate reads give it one text.
pub fn calculates_agree()
    ensures { CalculatesAgree }
{}

/// Where no cycle of static calculates stands, there is one settled state and no other.
pub fn settles()
    ensures once { SettlesOnce }
    ensures settled { Settles }
{}

/// So do the calculates of a form, as its binds apply them.
pub fn form_agrees()
    ensures { FormAgrees }
{}

/// Where no cycle of a form's calculates stands, there is one settled state and no other.
pub fn form_settles()
    ensures once { FormSettlesOnce }
    ensures settled { FormSettles }
{}

/// The text of each calculated node of a form can be set.
pub fn form_settable()
    ensures { FormSettable }
{}

/// Static calculates that are evaluated in an order of their graph, each over data that hold the texts of those before it, have the settled
/// texts, and pass the limits of strings and texts where those do.
pub fn in_turn()
    ensures contents { InTurnContents }
    ensures settled { InTurnSettled }
    ensures texts { InTurnTexts }
    ensures done { InTurnDone }
    ensures value { InTurnValue }
    ensures content { InTurnContent }
    ensures stands { InTurnStands }
    ensures passed { InTurnPassed }
    ensures fitting { InTurnFitting }
{}

/// The calculates of a form may be evaluated so.
pub fn form_in_turn()
    ensures { FormInTurn }
{}

/// What an entry gives over a forest is what it gives over visits that differ in numbers of texts alone.
pub fn evaluated()
    ensures text { EvaluatedText }
    ensures truth { EvaluatedTruth }
    ensures long { EvaluatedLong }
    ensures passed { EvaluatedPassed }
    ensures surroundings { SurroundingsStay }
    ensures numbers { SolidNumbers }
{}

/// Where no text is a top, and none stands in a root, texts stand in elements.
pub fn hung()
    ensures { HungForest }
{}

/// And so they do after each change.
pub fn hung_changes()
    ensures text { HungText }
    ensures detached { HungDetached }
    ensures placed { HungPlaced }
    ensures grown { HungGrown }
    ensures copied { HungCopied }
    ensures instances { HungInstances }
{}
