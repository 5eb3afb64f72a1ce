use super::*;
use settings::Setting;
use std::test::Fail;

// How many blocks are left, the first arrivals of the first and the last of them, and the sum of their sizes.
fn summed(blocks: Walk) -> (u32, u32, u32, u64) {
    let mut count: u32 = 0;
    let mut first = 0;
    let mut last = 0;
    let mut arrivals: u64 = 0;
    for block in blocks {
        if count == 0 {
            first = block.first();
        }
        last = block.first();
        arrivals = arrivals.saturating_add(block.size() as u64);
        count = count.saturating_add(1);
    }
    (count, first, last, arrivals)
}

#[test]
fn needs(rt: HostRuntime) -> Result<(), Fail> {
    let cases = [
        (1, 4, 519, 36),
        (1, 5, 1_038, 72),
        (1, 20, 8_823, 612),
        (6, 9, 60_397, 1_033),
        (6, 20, 724_764, 12_396),
    ];
    for (accuracy, span, rows, heads) in cases {
        let layout = Layout::of(Setting::new(accuracy, span)?);
        assert_eq!(rt;
            (layout.rows(), layout.heads()),
            (rows, heads),
            "at {accuracy} and {span}"
        );
    }
    Ok(())
}

#[test]
fn slots_of_an_arrival(rt: HostRuntime) -> Result<(), Fail> {
    // Levels of 17, 9, 5, 3 and 2 slots, of 4, 9, 19, 39 and 79 rows each.
    let expected = [
        (99, 1, 14 * 4, 4, 14),
        (98, 2, 68 + 4 * 9, 9, 17 + 4),
        (96, 4, 149 + 4 * 19, 19, 26 + 4),
        (96, 8, 244, 39, 31),
        (96, 16, 361, 79, 34),
    ];
    let layout = Layout::of(Setting::new(1, 4)?);
    let mut blocks = layout.visits(99);
    for (first, size, start, rows, head) in expected {
        let Some(block) = blocks.next() else {
            panic!(rt; "a level is missing");
        };
        assert_eq!(rt; (block.first(), block.size()), (first, size));
        assert_eq!(rt; block.place(), Place { start, rows, head });
    }
    assert_eq!(rt; blocks.next(), None);
    Ok(())
}

#[test]
fn scales_of_windows(rt: HostRuntime) -> Result<(), Fail> {
    let layout = Layout::of(Setting::new(1, 7)?);
    let cases = [
        (0, 0),
        (1, 0),
        (16, 0),
        (17, 1),
        (32, 1),
        (33, 2),
        (64, 2),
        (65, 3),
        (128, 3),
        (129, 3),
        (u32::MAX, 3),
    ];
    for (window, scale) in cases {
        assert_eq!(rt; layout.scale_of(window), scale, "for {window}");
    }
    Ok(())
}

#[test]
fn covers(rt: HostRuntime) -> Result<(), Fail> {
    let layout = Layout::of(Setting::new(1, 7)?);
    // Arrivals and window; then how many blocks, where the first and the last begin, the arrivals in them, and the ignored.
    let cases = [
        (100, 90, (3, 16, 64, 80), 10),
        (16, 16, (1, 0, 0, 16), 0),
        (17, 17, (1, 0, 0, 16), 1),
        (17, 16, (5, 1, 16, 16), 0),
        (100, 0, (0, 0, 0, 0), 0),
        (0, 0, (0, 0, 0, 0), 0),
        (1 << 30, 128, (1, (1 << 30) - 128, (1 << 30) - 128, 128), 0),
        (1 << 30, 127, (4, (1 << 30) - 120, (1 << 30) - 64, 120), 7),
        // no window: more keys than arrivals
        (10, 20, (2, 0, 8, 10), 10),
    ];
    for (arrivals, window, blocks, ignored) in cases {
        let cover = layout.cover(arrivals, window);
        assert_eq!(rt; cover.ignored, ignored, "of {window} of {arrivals}");
        assert_eq!(rt; summed(cover.blocks), blocks, "of {window} of {arrivals}");
    }
    Ok(())
}
