//! What a book of sessions is: its lines, its replies and what its slots stand for. Definitions with worked examples; no program stands on them.
#![tactic(auto)]
