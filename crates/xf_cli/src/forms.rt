//! The forms of this processor: as the loader reads them, and the engine runs them.

ghost use Rattle.std.specs.Prelude.{◌≡◌};
ghost use Rattle.xf_def_form.specs.Formed.{IsFromBytes};
ghost use Rattle.xf_cli.specs.Made.{IsMade, of_loading};

use std::alloc::Global;
use xf_actions::EventFault;
use xf_engine::{Constructed, Running};
use xf_engine_world::FormWorld;
use xf_form as loader;
use xf_form::{Loaded, load};
use xf_session::{FormFault, Forms};

/// The loader, and the engine. The prover takes an implementation over types with parameters where its own type has one: this one says nothing.
#[derive(Drop)]
pub(crate) struct OwnForms<T: Drop> {
    pub mark: T,
}

impl<T: Drop> Forms<Running<FormWorld>, Constructed<FormWorld>> for OwnForms<T> {
    fn construct(&self, alloc: Global, bytes: &[u8]) -> Result<Constructed<FormWorld>, FormFault> {
        match load(alloc, bytes) {
            Ok(loaded) => made(alloc, loaded),
            Err(fault) => Err(not_loaded(fault)),
        }
    }
}

/// Why bytes are no form.
fn not_loaded(fault: loader::FormFault) -> FormFault
    ensures { result ≡ of_loading fault }
{
    match fault {
        loader::FormFault::Refused(number, place) => FormFault::NotForm(number, place),
        loader::FormFault::Memory => FormFault::Memory,
    }
}

/// A form that is loaded, constructed.
fn made(alloc: Global, loaded: Loaded) -> Result<Constructed<FormWorld>, FormFault>
    requires { IsFromBytes loaded }
    ensures { IsMade loaded result }
{
    match FormWorld::construct(alloc, loaded) {
        Ok(world) => Ok(Constructed::new(world)),
        Err(EventFault::Refused(refusal)) => Err(FormFault::Refused(refusal)),
        Err(EventFault::Memory) => Err(FormFault::Memory),
    }
}
