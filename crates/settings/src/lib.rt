//! What a window counter is made from: how exact it is, and how long a window it can hold.
#![tactic(auto)]

mod refusal;
mod setting;

pub use refusal::SettingRefusal;
pub use setting::Setting;

#[cfg(test)]
mod tests {
    use super::*;
    use std::test::Fail;

    #[test]
    fn settings_at_their_edges(rt: HostRuntime) {
        let cases = [
            (0, 10, Some(SettingRefusal::Accuracy)),
            (1, 3, Some(SettingRefusal::Span)),
            (1, 4, None),
            (1, 20, None),
            (1, 21, Some(SettingRefusal::Span)),
            (6, 8, Some(SettingRefusal::Span)),
            (6, 9, None),
            (6, 20, None),
            (6, 21, Some(SettingRefusal::Span)),
            (7, 0, Some(SettingRefusal::Accuracy)),
            (u32::MAX, u32::MAX, Some(SettingRefusal::Accuracy)),
        ];
        for (accuracy, span, refusal) in cases {
            assert_eq!(rt;
                Setting::new(accuracy, span).err(),
                refusal,
                "at {accuracy} and {span}"
            );
        }
    }

    #[test]
    fn a_setting_tells_what_it_was_made_of(rt: HostRuntime) -> Result<(), Fail> {
        let setting = Setting::new(2, 9)?;
        assert_eq!(rt; (setting.accuracy(), setting.span()), (2, 9));
        Ok(())
    }

    #[test]
    fn refusals_by_number(rt: HostRuntime) {
        assert_eq!(rt; SettingRefusal::Accuracy.number(), 1);
        assert_eq!(rt; SettingRefusal::Span.number(), 2);
    }

    #[test]
    fn refusals_in_words(rt: HostRuntime) -> Result<(), Fail> {
        let cases = [
            (SettingRefusal::Accuracy, "refused 1"),
            (SettingRefusal::Span, "refused 2"),
        ];
        for (refusal, words) in cases {
            let text = format!(in rt.alloc(); "{refusal}")?;
            assert_eq!(rt; text.as_str(), words);
        }
        Ok(())
    }
}
