//! How the behaviours of a table stand to those of the form machine. Each function does nothing: its contract is a law.

ghost use Rattle.xf_binds_rebuild.specs.Machine.{RebuildsAlike};
ghost use Rattle.xf_binds_rebuild.specs.Order.{LinksDefined, RebuildTells};
ghost use Rattle.xf_binds_rebuild.specs.Reached.{PertinentMet};

/// The machine's rebuild is that of the table.
pub fn rebuilds_alike()
    ensures { RebuildsAlike }
{}

/// The graph by what is kept of the entries is the one that is defined.
pub fn links_defined()
    ensures { LinksDefined }
{}

/// What a rebuild that is not refused says of the entries.
pub fn rebuild_tells()
    ensures { RebuildTells }
{}

/// What a recalculation evaluates, by what a change reaches in the graph over the calculates.
pub fn pertinent_met()
    ensures { PertinentMet }
{}
