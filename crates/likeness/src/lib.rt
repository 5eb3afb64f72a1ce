//! Kinds of key: what is counted, and which keys count as one.
#![tactic(auto)]

mod address;
mod counts;
mod kind;
mod sounding;

pub use address::AddressKey;
pub use counts::{stands_in, true_count, truly_short};
pub use kind::Likeness;
pub use sounding::SoundingKey;

#[cfg(test)]
mod tests {
    use super::*;
    use bands::band_of;

    fn reading(sounder: [u8; 2], clearance: i32) -> SoundingKey {
        SoundingKey {
            sounder,
            band: band_of(clearance),
        }
    }

    #[test]
    fn addresses_are_alike_by_kind(rt: HostRuntime) {
        let depth = AddressKey { bytes: *b"SDDPT" };
        assert!(rt; depth.is_alike(&AddressKey { bytes: *b"IIDPT" }));
        assert!(rt; !depth.is_alike(&AddressKey { bytes: *b"SDDBT" }));
        assert!(rt; !depth.is_alike(&AddressKey { bytes: *b"SDCPT" }));
        assert!(rt; !depth.is_alike(&AddressKey { bytes: *b"SDDPS" }));
    }

    #[test]
    fn readings_are_alike_by_sounder_and_band(rt: HostRuntime) {
        let shallow = reading(*b"SD", 50);
        assert!(rt; shallow.is_alike(&reading(*b"SD", 46)));
        assert!(rt; !shallow.is_alike(&reading(*b"SD", 45)));
        assert!(rt; !shallow.is_alike(&reading(*b"SI", 50)));
        assert!(rt; !shallow.is_alike(&reading(*b"ID", 50)));
    }

    #[test]
    fn counts_of_a_window(rt: HostRuntime) {
        let window = [
            reading(*b"SD", 40),
            reading(*b"SD", 50),
            reading(*b"II", 40),
            reading(*b"SD", 45),
        ];
        assert_eq!(rt; true_count(&window, &reading(*b"SD", 0)), 2);
        assert_eq!(rt; true_count(&window, &reading(*b"SD", 98)), 0);
        assert!(rt; stands_in(&window, &reading(*b"SD", 0)));
        assert!(rt; !stands_in(&window, &reading(*b"SD", 98)));
        assert_eq!(rt; truly_short(&window, *b"SD", 1), 2);
        assert_eq!(rt; truly_short(&window, *b"SD", 2), 3);
        assert_eq!(rt; truly_short(&window, *b"II", 0), 0);
    }
}
