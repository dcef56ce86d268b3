//! Plain values.

use xf_name::Word;
use xf_num::Num;

/// A value that is no set of nodes (XPath 1.0, section 1).
#[derive(Debug, Drop)]
pub enum Plain {
    Text(Word),
    Number(Num),
    Truth(bool),
}
