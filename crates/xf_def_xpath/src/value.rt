//! Values of expressions.

use xf_def_forest::NodeList;
use xf_name::Word;
use xf_num::Num;

/// The value of an expression (XPath 1.0, section 1). Nodes stand in document order, each once.
#[derive(Debug, Drop)]
pub enum Value {
    Nodes(NodeList),
    Text(Word),
    Number(Num),
    Truth(bool),
}
