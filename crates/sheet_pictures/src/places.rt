// Where a print and a price stand in a panel.
ghost use Rattle.std.specs.Prelude.{◌≤◌};

// The panel's left and right end, its top and bottom, in units; how high a panel is, in pixels.
pub const LEFT: u64 = 1600;

pub const RIGHT: u64 = 10600;

pub const TOP: u64 = 400;

pub const BOTTOM: u64 = 5200;

pub const PANEL_PIXELS: u64 = 560;

const MIDDLE: u64 = 2800;

// Larger than every part and every place.
const MUCH: u64 = 0x1_0000_0000_0000;

// A part of a whole, in units of the panel's width or of its height; the part is small enough to be multiplied.
fn part_of(part: u64, whole: u64, units: u64) -> u64
    requires { units ≤ 65535 }
{
    if part > MUCH {
        return 0;
    }
    (part * units).checked_div(whole).unwrap_or(0)
}

// A place so much further on; much too far, the place itself.
pub fn beyond(from: u64, by: u64) -> u64 {
    if by > MUCH || from > MUCH {
        return from;
    }
    from + by
}

// Where a print stands, by its number among n.
pub fn across(number: u64, n: u64) -> u64 {
    if n < 2 || number == 0 {
        return LEFT;
    }
    beyond(LEFT, part_of(number - 1, n - 1, RIGHT - LEFT))
}

// Where a price stands between the lowest and the highest. Large ranges lose their low bits first.
pub fn down(price: u64, low: u64, high: u64) -> u64 {
    if high <= low {
        return MIDDLE;
    }
    if price >= high {
        return TOP;
    }
    if price <= low {
        return BOTTOM;
    }
    let unit = (high - low) / 0x100_0000_0000 + 1;
    beyond(
        TOP,
        part_of((high - price) / unit, (high - low) / unit, BOTTOM - TOP),
    )
}
