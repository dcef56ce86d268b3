//! What no contract of the forest and its ledger says, by worked steps: each test is a list of steps and the words that they write.
#![tactic(auto)]

#[cfg(test)]
mod memory;
#[cfg(test)]
mod nodes;
#[cfg(test)]
mod played;
#[cfg(test)]
mod texts;
#[cfg(test)]
mod trees;
#[cfg(test)]
mod undoing;
#[cfg(test)]
mod undone;
#[cfg(test)]
mod written;
