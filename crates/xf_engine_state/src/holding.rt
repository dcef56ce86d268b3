//! The nodes that controls bind whatever texts the data have, found once.

ghost use Rattle.std.specs.Prelude.{◌≡◌, true, IfOk};
ghost use Rattle.std.specs.Bool.{OnTrue};
ghost use Rattle.xf_law_recalculation.specs.Agree.Hung.{are_hung};
ghost use Rattle.xf_controls.specs.Plain.{is_plain as is_plain_form};
ghost use Rattle.xf_def_forest.specs.Shape.{shape_of};
ghost use Rattle.xf_def_ui.specs.Interface.{interface_of};
ghost use Rattle.xf_engine_state.specs.Held.{IsHeld, planted_shape};
ghost use Rattle.xf_engine_state.specs.Parts.{IsLoaded};

use crate::around::{Quiet, documents};
use std::alloc::{AllocError, Global};
use xf_base::Items;
use xf_controls::{KnownList, known_nodes};
use xf_eval::EvalFault;
use xf_form::Loaded;
use xf_tree::Forest;

/// The nodes of the controls of a form over the data that were planted. Where a string of these is too long, nothing is known of them.
pub(crate) fn held(
    alloc: Global,
    loaded: &Loaded,
    forest: &Forest,
    is_plain: bool,
) -> Result<KnownList, AllocError>
    requires loaded { IsLoaded loaded.now }
    requires plain { OnTrue is_plain (is_plain_form (interface_of loaded.now.form) ≡ true) }
    requires hung { are_hung forest.now.forest.nodes ≡ true }
    requires shape { shape_of forest.now.forest.nodes ≡ planted_shape loaded.now }
    ensures { IfOk result (IsHeld loaded.now) }
{
    let instances = loaded.form.tables.instances.as_slice();
    let documents = documents(alloc, instances, forest)?;
    let around = Quiet {
        instances,
        prefixes: &loaded.prefixes,
        decimals: loaded.form.decimals,
        documents: documents.as_slice(),
    };
    forest.are_trees();
    if forest.root(u32::MAX).is_some() {
        // No memory holds so many roots.
        return Err(AllocError);
    }
    if !is_plain {
        return Ok(Items::new(alloc));
    }
    match known_nodes(alloc, &loaded.form, forest, &around) {
        Ok(known) => Ok(known),
        Err(EvalFault::Long) => Ok(Items::new(alloc)),
        Err(EvalFault::Memory) => Err(AllocError),
    }
}
