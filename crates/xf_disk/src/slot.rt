//! The two slots.

/// One of the two slots of a disk.
#[derive(Clone, Copy, Debug, PartialEq, Eq)]
pub enum Slot {
    A,
    B,
}

impl Slot {
    ghost use Rattle.std.specs.Prelude.{◌≡◌};
    ghost use Rattle.xf_disk.specs.Image.{beside};

    /// The other of the two.
    pub fn beside(self) -> Slot
        ensures { result ≡ beside self }
    {
        match self {
            Slot::A => Slot::B,
            Slot::B => Slot::A,
        }
    }
}
