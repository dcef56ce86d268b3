//! How a form is constructed (XForms 1.1, section 4.2.1): its data are planted, its models built, its indexes start, its controls are shown. A reset
//! puts back the data as they are then.

ghost use Rattle.std.specs.Prelude.{◌≡◌, ◌<◌, ◌+◌, length, OnOk};
ghost use Rattle.xf_def_machine.specs.Construct.{build_model as builds, construct as constructs};
ghost use Rattle.xf_def_form.specs.Formed.{program_in, profile, IsFromBytes};
ghost use Rattle.xf_engine_state.specs.Does.{Does};
ghost use Rattle.xf_engine_state.specs.Standing.{state_of};
ghost use Rattle.xf_engine_world.specs.Constructed.{Builds, all_built, built_and_shown};

use std::alloc::Global;
use xf_engine_state::{Work, WorkFault, planted};
use xf_form::Loaded;

/// Constructs a form.
pub(crate) fn constructed(alloc: Global, loaded: Loaded) -> Result<Work, WorkFault>
    requires { IsFromBytes loaded }
    ensures { Builds result (constructs profile (program_in loaded)) }
{
    let mut work = planted(alloc, loaded)?;
    match begin(&mut work) {
        Ok(()) => Ok(work),
        Err(fault) => {
            // (its parts are dropped there, not in each function that has one)
            work.discard();
            Err(fault)
        }
    }
}

/// What follows the planting, and its data are kept as they are then.
fn begin(work: &mut Work) -> Result<(), WorkFault>
    requires built { work.old.built ≡ 0 }
    requires planted { constructs profile (state_of work.old.now).form ≡ built_and_shown profile (state_of work.old.now) }
    ensures { Does result work.new.now (built_and_shown profile (state_of work.old.now)) }
{
    build_and_show(work)?;
    work.keep_first_data()
}

/// Its models are built, its indexes start, and its controls are shown.
fn build_and_show(work: &mut Work) -> Result<(), WorkFault>
    requires { work.old.built ≡ 0 }
    ensures { Does result work.new.now (built_and_shown profile (state_of work.old.now)) }
{
    build(work)?;
    work.start_rows()?;
    work.show()
}

/// The models one after the other.
fn build(work: &mut Work) -> Result<(), WorkFault>
    requires { work.old.built ≡ 0 }
    ensures { Does result work.new.now (all_built profile (state_of work.old.now)) }
{
    let count = work.model_count();
    for model in 0..count {
        build_model(work, model)?;
    }
    Ok(())
}

/// The binds of a model are applied, its texts settled, its nodes validated.
fn build_model(work: &mut Work, model: u32) -> Result<(), WorkFault>
    requires model { model < length work.old.now.models }
    requires built { work.old.built ≡ model }
    ensures done { Does result work.new.now (builds profile model (state_of work.old.now)) }
    ensures built { OnOk result (work.new.built ≡ model + 1) }
{
    work.rebuild(model)?;
    work.recalculate(model)?;
    work.revalidate(model)
}
