//! The node of a set that a place names (XForms 1.1, section 10.3).

ghost use Rattle.std.specs.Prelude.{◌≡◌, Some};
ghost use Rattle.xf_def_model.specs.Places as model;

/// A place held between 1 and the size.
pub fn held(size: usize, at: i64) -> usize
    ensures { result ≡ model.held size (Some at) }
{
    if at < 1 {
        return 1;
    }
    if at as u64 > size as u64 {
        return size;
    }
    at as usize
}

/// The same, and the last where no place is written.
pub fn held_at(size: usize, at: Option<i64>) -> usize
    ensures { result ≡ model.held size at }
{
    match at {
        Some(at) => held(size, at),
        None => size,
    }
}
