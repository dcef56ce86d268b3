//! A form that is loaded.

use xf_def_syntax::Form;
use xf_name::{Lit, Prefixes};

/// The tables of a form, with its prefixes and the tree that it was read from, in which the trees of its instances stand at their places.
pub struct Loaded {
    pub form: Form,
    pub prefixes: Prefixes,
    pub lit: Lit,
}

// Written out: a derived one is proved anew for each type within it, in each crate that gives one up.
impl Drop for Loaded {
    fn drop(self) {
        let Loaded {
            form: _,
            prefixes: _,
            lit: _,
        } = self;
    }
}
