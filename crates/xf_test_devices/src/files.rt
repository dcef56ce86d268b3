//! What no contract says of real files, folders and streams: the bytes that they carry, and errors of theirs that are answered.
//! Most tests are a list of calls and the words that these give: a call costs the proof of a test much, and here each kind of
//! call stands once.
#[cfg(test)]
mod disks;
#[cfg(test)]
mod stores;
#[cfg(test)]
mod streams;
#[cfg(test)]
mod words;
