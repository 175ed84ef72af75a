//! The times that tests give.

use cms_fields::Stamp;

/// The first second of the year 2000.
pub const START: Stamp = Stamp {
    year: 2000,
    month: 1,
    day: 1,
    hour: 0,
    minute: 0,
    second: 0,
};

/// 1 July 2026 at noon.
pub const NOON: Stamp = Stamp {
    year: 2026,
    month: 7,
    day: 1,
    hour: 12,
    minute: 0,
    second: 0,
};
