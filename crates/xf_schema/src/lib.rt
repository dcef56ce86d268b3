//! Simple types by restriction with facets (XML Schema part 2, section 4): which elements of a schema are bad, and which texts meet a type.
#![tactic(auto)]

mod bases;
mod counts;
mod decimals;
mod facets;
mod meets;
mod rules;
mod schemas;
mod spaces;
mod written;

pub use bases::type_called;
pub use schemas::{first_bad, is_of_type, meets_named};
pub use written::{Facet, FacetKind, NamedType, Restriction, TypeName};
