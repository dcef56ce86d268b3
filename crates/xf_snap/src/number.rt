//! Numbers, the low byte first.
ghost use Rattle.std.specs.Prelude.{◌≡◌, ◌<◌, ◌^◌};
ghost use Rattle.std.specs.Option.{option_map};
ghost use Rattle.xf_snap.specs.Numbers.{two, four, eight};
ghost use Rattle.xf_snap.specs.Reading.{two_at, four_at, eight_at};

#[tactic(auto, unfolding(crate::specs::Numbers::two))]
pub(crate) fn two(number: u16) -> [u8; 2]
    ensures bytes { result ≡ two number }
    ensures small { number < 2 ^ 16 }
{
    number.to_le_bytes()
}

#[tactic(auto, unfolding(crate::specs::Numbers::four))]
pub(crate) fn four(number: u32) -> [u8; 4]
    ensures { result ≡ four number }
{
    number.to_le_bytes()
}

#[tactic(auto, unfolding(crate::specs::Numbers::eight))]
pub(crate) fn eight(number: u64) -> [u8; 8]
    ensures { result ≡ eight number }
{
    number.to_le_bytes()
}

/// A number of two bytes at the front, and the bytes behind it.
#[tactic(auto, unfolding(crate::specs::Numbers::from_two))]
pub(crate) fn two_at(bytes: &[u8]) -> Option<(u16, &[u8])>
    ensures { option_map (λ front. (front.0, front.1.now)) result ≡ two_at bytes.now }
{
    if bytes.len() < 2 {
        return None;
    }
    let number = u16::from_le_bytes([bytes[0], bytes[1]]);
    Some((number, &bytes[2..]))
}

/// A number of four bytes at the front, and the bytes behind it.
#[tactic(auto, unfolding(crate::specs::Numbers::from_four))]
pub(crate) fn four_at(bytes: &[u8]) -> Option<(u32, &[u8])>
    ensures { option_map (λ front. (front.0, front.1.now)) result ≡ four_at bytes.now }
{
    if bytes.len() < 4 {
        return None;
    }
    let number = u32::from_le_bytes([bytes[0], bytes[1], bytes[2], bytes[3]]);
    Some((number, &bytes[4..]))
}

/// A number of eight bytes at the front, and the bytes behind it.
#[tactic(auto, unfolding(crate::specs::Numbers::from_eight))]
pub(crate) fn eight_at(bytes: &[u8]) -> Option<(u64, &[u8])>
    ensures { option_map (λ front. (front.0, front.1.now)) result ≡ eight_at bytes.now }
{
    if bytes.len() < 8 {
        return None;
    }
    let number = u64::from_le_bytes([
        bytes[0], bytes[1], bytes[2], bytes[3], bytes[4], bytes[5], bytes[6], bytes[7],
    ]);
    Some((number, &bytes[8..]))
}
