//! The form that is processed, as the form machine sees it, and what the machine is given beside it.
#![tactic(auto)]
