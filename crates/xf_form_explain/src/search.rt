//! What details are searched in.

use crate::ids::Ids;
use std::alloc::Global;
use xf_form_refusals::Row;
use xf_name::Prefixes;
use xf_num::Decimals;
use xf_schema::TypeName;

/// The elements of a form, and the number of its refusal.
#[derive(Clone, Copy)]
pub struct Search<'s, 'a> {
    pub alloc: Global,
    pub number: u8,
    pub prefixes: &'s Prefixes,
    pub rows: &'s [Row<'a>],
    pub ids: &'s Ids<'a>,
    /// Those of the types of all schemas.
    pub names: &'s [TypeName],
    pub decimals: Decimals,
    /// The place of the first model.
    pub first_model: Option<usize>,
}
