//! From a clearance to its band.

ghost use Rattle.std.specs.Prelude.{◌≡◌, ℕ, ◌+◌, ◌<◌, ◌≤◌, ◌<ℤ◌, ◌↔◌, if◌then◌else◌, int_le};
ghost use Rattle.bands.specs.Bands.{band, limit, limits};

use super::Band;

/// The least clearance that each ferry class needs, in centimetres, class 1 first.
pub const LIMITS: [i32; 6] = [46, 55, 61, 70, 84, 98];

// A count of limits, and one more where the clearance reaches this one.
fn counted(count: u8, clearance: i32, least: i32) -> u8
    requires { count < 6 }
    ensures { result ≡ count + (if int_le least clearance then 1 else 0) }
{
    if clearance >= least { count + 1 } else { count }
}

// How many of the limits the clearance reaches. A loop, since a chain with `filter` takes five times as long.
fn limits_reached(clearance: i32) -> u8
    ensures { result ≡ band clearance }
{
    let mut count = 0;
    for least in LIMITS {
        count = counted(count, clearance, least);
    }
    count
}

/// The band of a clearance in centimetres.
///
/// A clearance is short for a class exactly where its band is below that class.
pub fn band_of(clearance: i32) -> Band
    ensures value { result ≡ band clearance }
    ensures short { (class : ℕ) → 1 ≤ class → class ≤ 6 → (result < class ↔ clearance <ℤ limit class) }
    ensures limits { LIMITS ≡ limits }
{
    Band {
        value: limits_reached(clearance),
    }
}
