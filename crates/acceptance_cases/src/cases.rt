// The tables.
use memory::Act;
use rules::Limits;
use table::{Kind, Par, Source};

// A record whose number is 0: kind, name, span.
#[derive(Clone, Copy)]
pub struct Record(pub Kind, pub u8, pub usize);

impl Record {
    pub fn bytes(self) -> [u8; Limits::RECORD_BYTES] {
        let [low, high, ..] = self.2.to_le_bytes();
        [u8::from(self.0), self.1, low, high, 0, 0, 0, 0]
    }
}

#[derive(Clone, Copy)]
pub struct Case {
    pub name: &'static str,
    pub records: &'static [Record],
}

// fin (nothing; nothing; ..): 256 records, and one more behind them.
pub fn long_table<const N: usize>() -> [Record; N] {
    std::array::from_fn(|i| match i {
        0 => Record(Kind::Fin, 0, 256),
        1..=254 if i % 2 == 1 => Record(Kind::Sequence, 0, 256 - i),
        _ => Record(Kind::Nothing, 0, 1),
    })
}

// Loops, one in the other, around an await.
pub fn nested_loops<const N: usize>() -> [Record; N] {
    std::array::from_fn(|i| {
        if i + 1 < N {
            Record(Kind::Loop, 0, N - i)
        } else {
            Record(Kind::Await(Source::Input), 1, 1)
        }
    })
}

pub static CASES: [Case; 8] = [
    // loop (await internal 1 or emit 1)
    Case {
        name: "9",
        records: &[
            Record(Kind::Loop, 0, 4),
            Record(Kind::Par(Par::Or), 0, 3),
            Record(Kind::Await(Source::Internal), 1, 1),
            Record(Kind::Emit, 1, 1),
        ],
    },
    // loop (await 1 and nothing)
    Case {
        name: "10: and",
        records: &[
            Record(Kind::Loop, 0, 4),
            Record(Kind::Par(Par::And), 0, 3),
            Record(Kind::Await(Source::Input), 1, 1),
            Record(Kind::Nothing, 0, 1),
        ],
    },
    // loop (await 1 or nothing)
    Case {
        name: "10: or",
        records: &[
            Record(Kind::Loop, 0, 4),
            Record(Kind::Par(Par::Or), 0, 3),
            Record(Kind::Await(Source::Input), 1, 1),
            Record(Kind::Nothing, 0, 1),
        ],
    },
    // loop (loop (await 1; break))
    Case {
        name: "11",
        records: &[
            Record(Kind::Loop, 0, 5),
            Record(Kind::Loop, 0, 4),
            Record(Kind::Sequence, 0, 3),
            Record(Kind::Await(Source::Input), 1, 1),
            Record(Kind::Break, 0, 1),
        ],
    },
    // A child past the end.
    Case {
        name: "stage 2",
        records: &[
            Record(Kind::Sequence, 0, 3),
            Record(Kind::Nothing, 0, 2),
            Record(Kind::Nothing, 0, 1),
        ],
    },
    // A name out of range.
    Case {
        name: "stage 3",
        records: &[
            Record(Kind::Sequence, 0, 3),
            Record(Kind::Act(Act::Assign), 0, 1),
            Record(Kind::Nothing, 0, 1),
        ],
    },
    // A loose break.
    Case {
        name: "stage 4",
        records: &[
            Record(Kind::Sequence, 0, 3),
            Record(Kind::Act(Act::Assign), 1, 1),
            Record(Kind::Break, 0, 1),
        ],
    },
    // An emit under an every.
    Case {
        name: "stage 5",
        records: &[
            Record(Kind::Every(Source::Input), 1, 2),
            Record(Kind::Emit, 1, 1),
        ],
    },
];
