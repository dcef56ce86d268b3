//! The laws on which a recalculation rests that evaluates only what a change can reach: from the marks of what changed to one value. Each
//! function does nothing: its contract is a law.
ghost use Rattle.xf_law_recalculation.specs.Marks.Marks.{EntryKeepsValue, EntryKeepsText};
ghost use Rattle.xf_law_recalculation.specs.Marks.Outside.{ButNumbersValue, ButNumbersText, OutsideStood, OutsideValue, OutsideTruth, OutsideText};
ghost use Rattle.xf_law_recalculation.specs.Marks.Instances.{WholeForests, InstancesTruth, InstancesText};
ghost use Rattle.xf_law_recalculation.specs.Marks.Binds.{BindStays, BindOfInstances, BindStaysInInstances};

/// An entry that reads nothing that is marked, and looks at no list that is, has the value, and the text, that it had.
pub fn entry_keeps()
    ensures value { EntryKeepsValue }
    ensures text { EntryKeepsText }
{}

/// So it has where the data of before agree with those of now but for the numbers of nodes, and it stands at another place that it does not ask for.
pub fn but_numbers()
    ensures value { ButNumbersValue }
    ensures text { ButNumbersText }
{}

/// An entry outside the pertinent ones stood at the last recalculation, and has the value, the truth and the text that it had then.
pub fn outside_pertinent()
    ensures stood { OutsideStood }
    ensures value { OutsideValue }
    ensures truth { OutsideTruth }
    ensures text { OutsideText }
{}

/// What is told of the instances of two forests holds of the whole forests, once the other nodes of the first one have new numbers.
pub fn whole_forests()
    ensures { WholeForests }
{}

/// So an entry of an instance outside the pertinent ones has the truth and the text of then, whatever trees were detached.
pub fn outside_in_instances()
    ensures truth { InstancesTruth }
    ensures text { InstancesText }
{}

/// A bind sets the same on the same nodes where no list is marked that its node set, or one around it, looks at; and over the instances alone.
pub fn bind_stays()
    ensures stays { BindStays }
    ensures instances { BindOfInstances }
    ensures in_instances { BindStaysInInstances }
{}
