//! What no contract of streams, stores, disks and journals says: each call once, in memory; and the counter of steps.
//!
//! A test has as few ways out as it can, since the proof goes through all that is dropped at each: a call that may not fail ends
//! in `expect`, and not in `?`.
#![tactic(auto)]

pub mod files;

/// Asserts, as `assert_eq!` does, that a call gives what is wanted. A note tells it from another one of the same text.
macro_rules! assert_gives {
    ($rt:expr; $call:expr, $wanted:expr) => {
        crate::same::assert_same(&$rt, stringify!($call), $call, $wanted)
    };
    ($rt:expr; $call:expr, $wanted:expr, $note:literal) => {
        crate::same::assert_same(&$rt, concat!(stringify!($call), " ", $note), $call, $wanted)
    };
}

#[cfg(test)]
mod disks;
#[cfg(test)]
mod journals;
#[cfg(test)]
mod renewals;
#[cfg(test)]
mod same;
#[cfg(test)]
mod shrinking;
#[cfg(test)]
mod steps;
#[cfg(test)]
mod stores;
#[cfg(test)]
mod streams;
