//! The behaviours of models that are due (XForms 1.1, section 4.3).

ghost use Rattle.std.specs.Prelude.{◌≡◌, ◌<◌, map, length, get_or, slice_set};
ghost use Rattle.std.specs.List.{list_any};
ghost use Rattle.xf_def_machine.specs.Update.{has_flag};
ghost use Rattle.xf_engine_state.specs.Built.{is_rebuild_due};
ghost use Rattle.xf_engine_state.specs.Flags.{flag_of, flags_of, none_due, without, without_refresh, with_refresh, with_texts};

/// A behaviour of a model that may be due alone.
#[derive(Clone, Copy, Debug, PartialEq, Eq)]
pub enum Flag {
    Rebuild,
    Recalculate,
    Revalidate,
    Refresh,
}

/// Which behaviours of a model are due.
#[derive(Clone, Copy, Debug, PartialEq, Eq)]
pub struct Flags {
    pub rebuild: bool,
    pub recalculate: bool,
    pub revalidate: bool,
    pub refresh: bool,
}

impl Flags {
    pub(crate) fn none() -> Self
        ensures { result ≡ none_due }
    {
        Flags {
            rebuild: false,
            recalculate: false,
            revalidate: false,
            refresh: false,
        }
    }

    /// Whether one is due.
    pub(crate) fn is_some(&self) -> bool
        ensures { result ≡ has_flag (flags_of self.now) }
    {
        self.rebuild || self.recalculate || self.revalidate || self.refresh
    }

    /// Whether this one is due.
    pub(crate) fn has(&self, flag: Flag) -> bool
        ensures { result ≡ flag_of flag (flags_of self.now) }
    {
        match flag {
            Flag::Rebuild => self.rebuild,
            Flag::Recalculate => self.recalculate,
            Flag::Revalidate => self.revalidate,
            Flag::Refresh => self.refresh,
        }
    }

    /// This one is due no more.
    pub(crate) fn without(self, flag: Flag) -> Self
        ensures { result ≡ without flag self }
    {
        match flag {
            Flag::Rebuild => Flags {
                rebuild: false,
                recalculate: self.recalculate,
                revalidate: self.revalidate,
                refresh: self.refresh,
            },
            Flag::Recalculate => Flags {
                rebuild: self.rebuild,
                recalculate: false,
                revalidate: self.revalidate,
                refresh: self.refresh,
            },
            Flag::Revalidate => Flags {
                rebuild: self.rebuild,
                recalculate: self.recalculate,
                revalidate: false,
                refresh: self.refresh,
            },
            Flag::Refresh => self.with_refresh(false),
        }
    }

    /// The refresh is due, or is due no more.
    pub(crate) fn with_refresh(self, due: bool) -> Self
        ensures { result ≡ with_refresh due self }
    {
        Flags {
            rebuild: self.rebuild,
            recalculate: self.recalculate,
            revalidate: self.revalidate,
            refresh: due,
        }
    }

    /// All but the rebuild are due besides.
    pub(crate) fn with_texts(self) -> Self
        ensures { result ≡ with_texts self }
    {
        Flags {
            rebuild: self.rebuild,
            recalculate: true,
            revalidate: true,
            refresh: true,
        }
    }
}

/// A behaviour of a model is due no more.
pub(crate) fn clear(flags: &mut [Flags], model: u32, flag: Flag)
    requires { model < length flags.old }
    ensures { flags.new ≡ slice_set flags.old model (without flag (get_or flags.old model none_due)) }
{
    let at = model as usize;
    flags[at] = flags[at].without(flag);
}

/// All behaviours of a model but the rebuild are due.
pub(crate) fn set_texts(flags: &mut [Flags], model: u32)
    requires { model < length flags.old }
    ensures { flags.new ≡ slice_set flags.old model (with_texts (get_or flags.old model none_due)) }
{
    let at = model as usize;
    flags[at] = flags[at].with_texts();
}

/// Whether a behaviour of one of the models is due.
pub(crate) fn is_due(flags: &[Flags]) -> bool
    ensures { result ≡ list_any (λ f. has_flag (flags_of f)) flags.now }
{
    flags.iter().any(|flags| flags.is_some())
}

/// Whether the rebuild of a model is due.
pub(crate) fn is_rebuild_due(flags: &[Flags], model: u32) -> bool
    requires { model < length flags.now }
    ensures { result ≡ is_rebuild_due flags.now model }
{
    flags[model as usize].rebuild
}

/// Whether the refresh of one of the models is due.
pub(crate) fn is_refresh_due(flags: &[Flags]) -> bool
    ensures { result ≡ list_any (λ f. f.refresh) flags.now }
{
    flags.iter().any(|flags| flags.refresh)
}

/// The refresh of a model is due, or is due no more: of one that is not there none is.
pub(crate) fn set_refresh(flags: &mut [Flags], model: u32, due: bool)
    ensures { flags.new ≡ slice_set flags.old model (with_refresh due (get_or flags.old model none_due)) }
{
    let at = model as usize;
    if at < flags.len() {
        flags[at] = flags[at].with_refresh(due);
    }
}

/// No refresh is due any more.
pub(crate) fn clear_refresh(flags: &mut [Flags])
    ensures { flags.new ≡ map without_refresh flags.old }
{
    for flags in flags.iter_mut() {
        flags.refresh = false;
    }
}
