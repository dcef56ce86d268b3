//! What holds of every forest.
ghost use Rattle.xf_def_forest.specs.WellFormed.{AreTrees};

use crate::forest::Forest;

impl Forest {
    /// The nodes are those of trees, and no number comes twice. This tells contracts so, and does nothing.
    pub fn are_trees(&self)
        ensures { AreTrees self.now }
    {
        let _ = &self.rows;
    }
}
