//! Where the ship of the worked examples is.

use crate::Fix;

/// 42 degrees 31 minutes north, 83 degrees 12 minutes west.
pub const FIX: Fix = Fix {
    quadrant: 1,
    lat_deg: 42,
    lat_min: 31,
    lon_deg: 83,
    lon_min: 12,
};
