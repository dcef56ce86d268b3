//! Numbers in a slot, the low byte first.
ghost use Rattle.std.specs.Prelude.{◌≡◌, ◌≤◌, length};
ghost use Rattle.xf_journal.specs.Numbers.{four, eight, from_four, from_eight};

#[tactic(auto, unfolding(crate::specs::Numbers::four))]
pub(crate) fn four(number: u32) -> [u8; 4]
    ensures { result ≡ four number }
{
    number.to_le_bytes()
}

#[tactic(auto, unfolding(crate::specs::Numbers::eight))]
pub(crate) fn eight(number: u64) -> [u8; 8]
    ensures { result ≡ eight number }
{
    number.to_le_bytes()
}

/// The number of the first four bytes.
#[tactic(auto, unfolding(crate::specs::Numbers::from_four))]
pub(crate) fn from_four(bytes: &[u8]) -> u32
    requires { 4 ≤ length bytes.now }
    ensures { result ≡ from_four bytes.now }
{
    u32::from_le_bytes([bytes[0], bytes[1], bytes[2], bytes[3]])
}

/// The number of the first eight bytes.
#[tactic(auto, unfolding(crate::specs::Numbers::from_eight))]
pub(crate) fn from_eight(bytes: &[u8]) -> u64
    requires { 8 ≤ length bytes.now }
    ensures { result ≡ from_eight bytes.now }
{
    u64::from_le_bytes([
        bytes[0], bytes[1], bytes[2], bytes[3], bytes[4], bytes[5], bytes[6], bytes[7],
    ])
}
