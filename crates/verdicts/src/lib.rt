//! Verdicts: what a keeper's counts say of a ferry class at the berth.
#![tactic(auto)]

mod asking;
mod judgement;
mod refusal;

pub use asking::{FIRST_CLASS, LAST_CLASS, verdict};
pub use judgement::{Judgement, Verdict};
pub use refusal::VerdictRefusal;

#[cfg(test)]
mod tests {
    use super::*;
    use keeper::Refusal;
    use std::test::Fail;

    #[test]
    fn at_a_quarter(rt: HostRuntime) {
        let cases = [
            (0, 0, 0, Verdict::Unsure),
            (1, 0, 0, Verdict::Clear),
            (1, 0, 1, Verdict::Unsure),
            (1, 1, 1, Verdict::Held),
            (8, 1, 1, Verdict::Clear),
            (8, 1, 2, Verdict::Unsure),
            (8, 2, 2, Verdict::Held),
            (u32::MAX, 1 << 62, u64::MAX, Verdict::Held),
            (u32::MAX, 0, u64::MAX, Verdict::Unsure),
        ];
        for (size, floor, ceiling, verdict) in cases {
            let wanted = Judgement {
                verdict,
                floor,
                ceiling,
            };
            assert_eq!(rt; Judgement::of(size, floor, ceiling), wanted);
        }
    }

    #[test]
    fn in_words(rt: HostRuntime) -> Result<(), Fail> {
        let held = format!(in rt.alloc(); "{}", Judgement::of(5, 5, 6))?;
        assert_eq!(rt; held.as_str(), "held 5 6");
        let clear = format!(in rt.alloc(); "{}", Judgement::of(5, 0, 1))?;
        assert_eq!(rt; clear.as_str(), "clear 0 1");
        let unsure = format!(in rt.alloc(); "{}", Judgement::of(0, 0, 0))?;
        assert_eq!(rt; unsure.as_str(), "unsure 0 0");
        let refused = format!(in rt.alloc(); "{}", VerdictRefusal::Class)?;
        assert_eq!(rt; refused.as_str(), "refused 11");
        Ok(())
    }

    #[test]
    fn refusals_by_number(rt: HostRuntime) {
        assert_eq!(rt; VerdictRefusal::Class.number(), 11);
        assert_eq!(rt; VerdictRefusal::from(Refusal::ShortTable).number(), 4);
    }
}
