//! What of a session is kept, and its bytes.
#![tactic(auto)]

mod amount;
mod number;
mod reading;
mod snap;
mod writing;

pub use reading::decode;
pub use snap::{CountList, Snap};
pub use writing::encode;
