// The levels of pointer blocks above data blocks.
ghost use Rattle.std.specs.Prelude.{◌≡◌, ◌^◌, ◌-◌, ◌≤◌, ◌&&◌, nat_le, nat_lt, min};
ghost use Rattle.cms_fields.specs.Numbers.{is_shape};

// The data blocks for which so many levels have room, held at the greatest number of 64 bits.
fn room_below(fan: u32, levels: u8) -> u64
    ensures { result ≡ min (fan ^ levels) (2 ^ 64 - 1) }
{
    u64::from(fan).saturating_pow(u32::from(levels))
}

// Whether these are the levels above this many data blocks: they have room for all, and one fewer doesn't.
#[tactic(auto, using(crate::proofs::Shapes::some_levels, crate::proofs::Shapes::no_level))]
pub(crate) fn is_shape(fan: u32, count: u32, levels: u8) -> bool
    ensures { result ≡ is_shape fan count levels }
{
    match levels.checked_sub(1) {
        None => count <= 1,
        Some(fewer) => is_first(count, room_below(fan, fewer), room_below(fan, levels)),
    }
}

// Whether there are more data blocks than the one room has, and no more than the other.
fn is_first(count: u32, room: u64, next: u64) -> bool
    ensures { result ≡ (nat_lt room count && nat_le count next) }
{
    let count = u64::from(count);
    room < count && count <= next
}
