//! Reads NMEA 0183 sentences: the address of any, and the clearance of a depth sentence.
#![tactic(auto)]

mod error;
mod fields;
mod reader;
mod shape;
mod sums;

pub use error::SentenceError;
pub use reader::{Address, Reading, read_address, read_depth};
pub use sums::checksum;

#[cfg(test)]
mod tests {
    use super::*;
    use std::process::Abort;
    use std::test::Fail;

    fn reads(rt: &impl Abort, bytes: &[u8], sounder: [u8; 2], clearance: i32) {
        assert_eq!(rt; read_depth(bytes), Ok(Reading { sounder, clearance }));
    }

    fn refuses(rt: &impl Abort, bytes: &[u8], number: u8, column: usize) -> Result<(), Fail> {
        match read_depth(bytes) {
            Ok(_) => Err(Fail::new("read")),
            Err(error) => {
                assert_eq!(rt; (error.number(), error.column()), (number, column));
                Ok(())
            },
        }
    }

    #[test]
    fn clearances(rt: HostRuntime) {
        reads(&rt, b"$SDDPT,4.1,-3.6*7A", *b"SD", 50);
        reads(&rt, b"$SDDPT,4.15,-3.6,100*52", *b"SD", 55);
        reads(&rt, b"$IIDPT,0,-0,*41", *b"II", 0);
        reads(&rt, b"$SDDPT,9999.99,-0*64", *b"SD", 999_999);
        reads(&rt, b"$SDDPT,0000,-9999.99*54", *b"SD", -999_999);
        reads(&rt, b"$SDDPT,3.00,-3.6*4C", *b"SD", -60);
    }

    #[test]
    fn wrong_shapes(rt: HostRuntime) -> Result<(), Fail> {
        refuses(&rt, b"", 12, 1)?;
        refuses(&rt, b"!SDDPT,4.1,-3.6*7A", 12, 1)?;
        refuses(&rt, b"$SdDPT,4.1,-3.6*7A", 12, 3)?;
        refuses(&rt, b"$SDDPT4.1,-3.6*7A", 12, 7)?;
        refuses(&rt, b"$SDDPT,4.1,-3.6*7a", 12, 18)?;
        refuses(&rt, b"$SDDPT,4.1,-3.6*7A ", 12, 19)?;
        refuses(&rt, &[b'$'; 200], 12, 2)
    }

    #[test]
    fn at_most_eighty_bytes(rt: HostRuntime) -> Result<(), Fail> {
        let mut long = [b','; 200];
        long[0..6].copy_from_slice(b"$SDDPT");
        refuses(&rt, &long[0..80], 12, 81)?;
        refuses(&rt, &long[0..81], 12, 81)?;
        refuses(&rt, &long, 12, 81)
    }

    #[test]
    fn wrong_sums_and_addresses(rt: HostRuntime) -> Result<(), Fail> {
        refuses(&rt, b"$SDDPT,4.1,-3.6*7B", 13, 17)?;
        refuses(&rt, b"$SDDBT,4.1,-3.6*68", 14, 2)?;
        assert!(rt; read_address(b"$SDDBT,4.1,-3.6*68") == Ok(Address { bytes: *b"SDDBT" }));
        assert!(rt;
            read_address(b"$SDDBT,4.1,-3.6*69") == Err(SentenceError::Checksum { column: 17 })
        );
        Ok(())
    }

    #[test]
    fn refusals_in_words(rt: HostRuntime) -> Result<(), Fail> {
        let cases = [
            (SentenceError::Shape { column: 81 }, "refused 12 at 81"),
            (SentenceError::Checksum { column: 17 }, "refused 13 at 17"),
            (SentenceError::NotDepth, "refused 14 at 2"),
            (SentenceError::NoClearance { column: 8 }, "refused 15 at 8"),
        ];
        for (error, words) in cases {
            let text = format!(in rt.alloc(); "{error}")?;
            assert_eq!(rt; text.as_str(), words);
        }
        Ok(())
    }

    #[test]
    fn no_clearances(rt: HostRuntime) -> Result<(), Fail> {
        refuses(&rt, b"$SDDPT*57", 15, 7)?;
        refuses(&rt, b"$SDDPT,*7B", 15, 8)?;
        refuses(&rt, b"$SDDPT,4.,-3.6*4B", 15, 8)?;
        refuses(&rt, b"$SDDPT,4.123,-3.6*7B", 15, 8)?;
        refuses(&rt, b"$SDDPT,12345,-3.6*60", 15, 8)?;
        refuses(&rt, b"$SDDPT,4.1*50", 15, 11)?;
        refuses(&rt, b"$SDDPT,4.1,0.5*57", 15, 12)?;
        refuses(&rt, b"$SDDPT,4.1,-*51", 15, 12)?;
        refuses(&rt, b"$SDDPT,4.1,-3.6,1,2*79", 15, 19)?;
        refuses(&rt, b"$SDDPT,4.1,-3.6,,*7A", 15, 18)
    }
}
