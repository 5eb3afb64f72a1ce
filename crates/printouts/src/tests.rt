use kinds::Kinds;
use soundings::Soundings;
use std::alloc::{AllocError, Global};
use std::io;
use std::test::Fail;
use watch::{Counter, Watch, run};

// What is printed about an input that comes in two pieces.
fn printed<C: Counter>(heap: Global, first: &[u8], second: &[u8]) -> Result<String, AllocError> {
    let mut out = String::new(heap);
    let mut watch = Watch::<C>::new(heap)?;
    watch.feed(first, &mut out)?;
    watch.feed(second, &mut out)?;
    watch.finish(&mut out)?;
    Ok(out)
}

// What bedwatch prints at the end: how many readings its window holds, and what it says of each class.
fn ending(heap: Global, readings: u32, said: [&str; 6]) -> Result<String, AllocError> {
    let mut out = format!(in heap; "readings {readings}\n")?;
    for (index, judgement) in said.iter().enumerate() {
        writeln!(out, "class {} {judgement}", index + 1)?;
    }
    Ok(out)
}

const NO_READINGS: [&str; 6] = ["unsure 0 0"; 6];

// Of one reading, with a clearance of 50 centimetres.
const ONE_READING: [&str; 6] = [
    "clear 0 0",
    "held 1 1",
    "held 1 1",
    "held 1 1",
    "held 1 1",
    "held 1 1",
];

#[test]
fn three_lines_cut_anywhere(rt: HostRuntime) -> Result<(), Fail> {
    let input = b"$SDDPT,4.1,-3.6*7A\r\n\n$SDDPT,4.1*00";
    let refused = "line 2 refused 12 at 1\nline 3 refused 13 at 12\n";
    let ending = ending(rt.alloc(), 1, ONE_READING)?;
    let wanted = format!(in rt.alloc(); "{refused}{ending}")?;
    for at in 0..=input.len() {
        let (first, second) = input.split_at(at);
        let out = printed::<Soundings>(rt.alloc(), first, second)?;
        assert_eq!(rt; out.as_str(), wanted.as_str(), "cut at {at}");
    }
    Ok(())
}

#[test]
fn no_lines(rt: HostRuntime) -> Result<(), Fail> {
    assert_eq!(rt;
        printed::<Soundings>(rt.alloc(), b"", b"")?.as_str(),
        ending(rt.alloc(), 0, NO_READINGS)?.as_str()
    );
    assert_eq!(rt; printed::<Kinds>(rt.alloc(), b"", b"")?.as_str(), "");
    Ok(())
}

#[test]
fn refused_lines_alone(rt: HostRuntime) -> Result<(), Fail> {
    let out = printed::<Soundings>(rt.alloc(), b"$SDDPT*57\n", b"\n")?;
    let refused = "line 1 refused 15 at 7\nline 2 refused 12 at 1\n";
    let ending = ending(rt.alloc(), 0, NO_READINGS)?;
    assert_eq!(rt;
        out.as_str(),
        format!(in rt.alloc(); "{refused}{ending}")?.as_str()
    );
    Ok(())
}

#[test]
fn last_line_is_counted(rt: HostRuntime) -> Result<(), Fail> {
    let out = printed::<Soundings>(rt.alloc(), b"$SDDPT,4.1,", b"-3.6*7A")?;
    assert_eq!(rt; out.as_str(), ending(rt.alloc(), 1, ONE_READING)?.as_str());
    let out = printed::<Kinds>(rt.alloc(), b"$SDDPT,4.1,", b"-3.6*7A")?;
    assert_eq!(rt; out.as_str(), "kind DPT 1 1\n");
    Ok(())
}

#[test]
fn five_sentences(rt: HostRuntime) -> Result<(), Fail> {
    let input = b"$SDDPT,4.0,-3.6*7B\n$SDDPT,4.5,-3.6*7E\n$SDDPT,4.5,-3.6*7E\n$SDDPT,4.5,-3.6*7E\n";
    let out = printed::<Kinds>(rt.alloc(), input, b"$SDDPT,4.5,-3.6*7E\n")?;
    assert_eq!(rt; out.as_str(), "kind DPT 5 5\n");
    let out = printed::<Soundings>(rt.alloc(), input, b"$SDDPT,4.5,-3.6*7E\n")?;
    let said = [
        "clear 1 1",
        "clear 1 1",
        "clear 1 1",
        "clear 1 1",
        "clear 1 1",
        "held 5 5",
    ];
    assert_eq!(rt; out.as_str(), ending(rt.alloc(), 5, said)?.as_str());
    Ok(())
}

// Another sounder's readings lie in the window too, and none of them is counted as short.
#[test]
fn two_sounders(rt: HostRuntime) -> Result<(), Fail> {
    let others =
        b"$IIDPT,4.0,-3.6*6C\n$IIDPT,4.0,-3.6*6C\n$IIDPT,4.0,-3.6*6C\n$IIDPT,4.0,-3.6*6C\n";
    let out = printed::<Soundings>(rt.alloc(), b"$SDDPT,4.0,-3.6*7B\n", others)?;
    assert_eq!(rt;
        out.as_str(),
        ending(rt.alloc(), 5, ["clear 1 1"; 6])?.as_str()
    );
    Ok(())
}

// A reading of each band, 0 first.
const LINES: [&str; 7] = [
    "$SDDPT,4.0,-3.6*7B\n",
    "$SDDPT,4.1,-3.6*7A\n",
    "$SDDPT,4.2,-3.6*79\n",
    "$SDDPT,4.25,-3.6*4C\n",
    "$SDDPT,4.35,-3.6*4D\n",
    "$SDDPT,4.5,-3.6*7E\n",
    "$SDDPT,5.0,-3.6*7A\n",
];

// So many readings, of all bands. Here and there more bands come in sixteen readings than a tally of these has rows.
fn mixed_readings(heap: Global, count: u32) -> Result<String, AllocError> {
    let mut input = String::new(heap);
    for number in 0..count {
        let square = u64::from(number) * u64::from(number);
        input.push_str(LINES[(square / 40 % 7) as usize])?;
    }
    Ok(input)
}

// The window holds 256: as many are counted exactly. Of 255 and of 257 the ladder leaves some out, and its tallies lose some.
#[test]
fn the_latest_readings(rt: HostRuntime) -> Result<(), Fail> {
    let cases = [
        (
            255,
            255,
            [
                "unsure 54 72",
                "held 85 121",
                "held 113 167",
                "held 145 217",
                "held 180 270",
                "held 199 307",
            ],
        ),
        (
            256,
            256,
            [
                "clear 58 58",
                "held 95 95",
                "held 128 128",
                "held 163 163",
                "held 204 204",
                "held 226 226",
            ],
        ),
        (
            257,
            256,
            [
                "unsure 48 67",
                "held 80 118",
                "held 109 166",
                "held 141 217",
                "held 178 273",
                "held 197 311",
            ],
        ),
        (
            600,
            256,
            [
                "unsure 55 74",
                "held 87 125",
                "held 116 173",
                "held 147 223",
                "held 182 277",
                "held 201 315",
            ],
        ),
    ];
    for (count, size, said) in cases {
        let input = mixed_readings(rt.alloc(), count)?;
        let out = printed::<Soundings>(rt.alloc(), input.as_bytes(), b"")?;
        assert_eq!(rt;
            out.as_str(),
            ending(rt.alloc(), size, said)?.as_str(),
            "of {count}"
        );
    }
    Ok(())
}

// Ten of one kind, a refused line, and so many of another kind.
fn two_kinds(heap: Global, others: usize) -> Result<String, AllocError> {
    let mut input = String::new(heap);
    for _ in 0..10 {
        input.push_str("$SDDBT,4.1,-3.6*68\n")?;
    }
    input.push_str("$SDDBT,4.1,-3.6*69\n")?;
    for _ in 0..others {
        input.push_str("$IIDPT,0,-0,*41\n")?;
    }
    printed::<Kinds>(heap, input.as_bytes(), b"$SDDPT*57")
}

// Of 63 addresses, eight make an eighth, and seven do not.
#[test]
fn the_window_slides(rt: HostRuntime) -> Result<(), Fail> {
    let refused = "line 11 refused 13 at 17\n";
    let cases = [
        (1, "kind DBT 10 10\nkind DPT 2 2\n"),
        (52, "kind DBT 10 10\nkind DPT 53 53\n"),
        (54, "kind DBT 8 8\nkind DPT 55 55\n"),
        (55, "kind DPT 56 56\n"),
        (200, "kind DPT 63 63\n"),
    ];
    for (others, kinds) in cases {
        let out = two_kinds(rt.alloc(), others)?;
        let wanted = format!(in rt.alloc(); "{refused}{kinds}")?;
        assert_eq!(rt; out.as_str(), wanted.as_str(), "after {others}");
    }
    Ok(())
}

#[test]
fn from_bytes_to_bytes(rt: HostRuntime) -> Result<(), Fail> {
    let mut input = &b"$SDDPT,4.1,-3.6*7A\n\n"[..];
    let mut output = Vec::new(rt.alloc());
    run::<Soundings, _, _>(&mut input, &mut output, rt.alloc())?;
    let ending = ending(rt.alloc(), 1, ONE_READING)?;
    let wanted = format!(in rt.alloc(); "line 2 refused 12 at 1\n{ending}")?;
    assert_eq!(rt; output.as_slice(), wanted.as_bytes());
    Ok(())
}
