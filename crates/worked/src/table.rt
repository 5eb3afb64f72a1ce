//! The table of the cases.

ghost use Rattle.std.specs.Prelude.{◌≡◌, map};
ghost use Rattle.worked.specs.Table.{given};

/// A worked case: what is asked, and the numbers that come out.
#[derive(Debug)]
pub struct Case {
    pub asked: &'static str,
    pub numbers: &'static [u32],
}

const CASES: [Case; 13] = [
    Case {
        asked: "the tally of A, B, A, C in two rows: each row's key and count, and what is lost",
        numbers: &[1, 1, 1],
    },
    Case {
        asked: "the same after D, B",
        numbers: &[2],
    },
    Case {
        asked: "accuracy 1, span 7, the newest 90 of 100: the cover's blocks, and what it ignores",
        numbers: &[16, 32, 32, 10],
    },
    Case {
        asked: "accuracy 1, span 5, sixteen alike keys: their count",
        numbers: &[16, 16],
    },
    Case {
        asked: "accuracy 1, span 5, seventeen alike keys: their count",
        numbers: &[16, 17],
    },
    Case {
        asked: "the same, a list at 8: refused",
        numbers: &[10],
    },
    Case {
        asked: "the same, a list at 9: the entry's key, floor and ceiling",
        numbers: &[7, 16, 17],
    },
    Case {
        asked: "rows and heads of a scale at accuracy 1",
        numbers: &[519, 36],
    },
    Case {
        asked: "rows and heads of a ladder of accuracy 6 and span 20",
        numbers: &[724_764, 12_396],
    },
    Case {
        asked: "the bands of clearances of 45, 46, 98 and -60 centimetres",
        numbers: &[0, 1, 6, 0],
    },
    Case {
        asked: "whether SDDPT is alike to IIDPT, and to SDDBT",
        numbers: &[1, 0],
    },
    Case {
        asked: "a count in an empty window",
        numbers: &[0, 0],
    },
    Case {
        asked: "a drop from an empty window: refused",
        numbers: &[8],
    },
];

/// All worked cases. What comes out of each is what the definitions give.
pub fn worked_cases() -> &'static [Case]
    ensures { map (λ case. case.numbers.now) result.now ≡ given }
{
    &CASES
}
