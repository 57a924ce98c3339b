// The cases: a program, the events that are sent to it, and whether its variable 1 is shown at the end.
use std::fmt;

#[derive(Clone, Copy)]
pub struct Sent {
    pub event: u32,
    pub value: Option<i32>,
}

impl fmt::Display for Sent {
    fn fmt<W: fmt::Write>(&self, f: &mut fmt::Formatter<W>) -> fmt::Result {
        write!(f, "event {}", self.event)?;
        match self.value {
            Some(value) => write!(f, " of {value}"),
            None => Ok(()),
        }
    }
}

#[derive(Clone, Copy)]
pub struct Case {
    pub name: &'static str,
    pub table: &'static [u8],
    pub events: &'static [Sent],
    pub shows_variable: bool,
}

// loop (await 1; output 1 v0)
pub const WAIT_AND_OUTPUT: &[u8] = b"\x0e\x00\x04\x00\x00\x00\x00\x00\
    \x0d\x00\x03\x00\x00\x00\x00\x00\
    \x08\x01\x01\x00\x00\x00\x00\x00\
    \x07\x01\x01\x00\x00\x00\x00\x00";

pub static CASES: [Case; 16] = [
    // nothing
    Case {
        name: "1",
        table: b"\x00\x00\x01\x00\x00\x00\x00\x00",
        events: &[],
        shows_variable: false,
    },
    // v1 := 5
    Case {
        name: "2",
        table: b"\x01\x01\x01\x00\x05\x00\x00\x00",
        events: &[],
        shows_variable: true,
    },
    // await 1
    Case {
        name: "3",
        table: b"\x08\x01\x01\x00\x00\x00\x00\x00",
        events: &[
            Sent {
                event: 2,
                value: None,
            },
            Sent {
                event: 1,
                value: None,
            },
        ],
        shows_variable: false,
    },
    // (await internal 1; output 1 v1) and (v1 := 7; (emit 1; v1 := 9))
    Case {
        name: "4",
        table: b"\x11\x00\x09\x00\x00\x00\x00\x00\
            \x0d\x00\x03\x00\x00\x00\x00\x00\
            \x09\x01\x01\x00\x00\x00\x00\x00\
            \x07\x01\x01\x00\x01\x00\x00\x00\
            \x0d\x00\x05\x00\x00\x00\x00\x00\
            \x01\x01\x01\x00\x07\x00\x00\x00\
            \x0d\x00\x03\x00\x00\x00\x00\x00\
            \x0a\x01\x01\x00\x00\x00\x00\x00\
            \x01\x01\x01\x00\x09\x00\x00\x00",
        events: &[],
        shows_variable: true,
    },
    // loop (await 1; output 1 v0)
    Case {
        name: "5",
        table: WAIT_AND_OUTPUT,
        events: &[Sent {
            event: 1,
            value: Some(3),
        }],
        shows_variable: false,
    },
    // (fin output 2 v0) or (await 1)
    Case {
        name: "6",
        table: b"\x12\x00\x04\x00\x00\x00\x00\x00\
            \x13\x00\x02\x00\x00\x00\x00\x00\
            \x07\x02\x01\x00\x00\x00\x00\x00\
            \x08\x01\x01\x00\x00\x00\x00\x00",
        events: &[Sent {
            event: 1,
            value: Some(40),
        }],
        shows_variable: false,
    },
    // every 1 (output 1 v0)
    Case {
        name: "7",
        table: b"\x0f\x01\x02\x00\x00\x00\x00\x00\
            \x07\x01\x01\x00\x00\x00\x00\x00",
        events: &[Sent {
            event: 1,
            value: Some(6),
        }],
        shows_variable: false,
    },
    // await 1 or await 1
    Case {
        name: "8",
        table: b"\x12\x00\x03\x00\x00\x00\x00\x00\
            \x08\x01\x01\x00\x00\x00\x00\x00\
            \x08\x01\x01\x00\x00\x00\x00\x00",
        events: &[Sent {
            event: 1,
            value: None,
        }],
        shows_variable: false,
    },
    // loop (await internal 1 or emit 1)
    Case {
        name: "9",
        table: b"\x0e\x00\x04\x00\x00\x00\x00\x00\
            \x12\x00\x03\x00\x00\x00\x00\x00\
            \x09\x01\x01\x00\x00\x00\x00\x00\
            \x0a\x01\x01\x00\x00\x00\x00\x00",
        events: &[],
        shows_variable: false,
    },
    // loop (await 1 and nothing)
    Case {
        name: "10, and",
        table: b"\x0e\x00\x04\x00\x00\x00\x00\x00\
            \x11\x00\x03\x00\x00\x00\x00\x00\
            \x08\x01\x01\x00\x00\x00\x00\x00\
            \x00\x00\x01\x00\x00\x00\x00\x00",
        events: &[],
        shows_variable: false,
    },
    // loop (await 1 or nothing)
    Case {
        name: "10, or",
        table: b"\x0e\x00\x04\x00\x00\x00\x00\x00\
            \x12\x00\x03\x00\x00\x00\x00\x00\
            \x08\x01\x01\x00\x00\x00\x00\x00\
            \x00\x00\x01\x00\x00\x00\x00\x00",
        events: &[],
        shows_variable: false,
    },
    // loop (loop (await 1; break))
    Case {
        name: "11",
        table: b"\x0e\x00\x05\x00\x00\x00\x00\x00\
            \x0e\x00\x04\x00\x00\x00\x00\x00\
            \x0d\x00\x03\x00\x00\x00\x00\x00\
            \x08\x01\x01\x00\x00\x00\x00\x00\
            \x0b\x00\x01\x00\x00\x00\x00\x00",
        events: &[],
        shows_variable: false,
    },
    // v1 := -7; (v2 := 2; v1 := v1 / v2)
    Case {
        name: "12, -7 / 2",
        table: b"\x0d\x00\x05\x00\x00\x00\x00\x00\
            \x01\x01\x01\x00\xf9\xff\xff\xff\
            \x0d\x00\x03\x00\x00\x00\x00\x00\
            \x01\x02\x01\x00\x02\x00\x00\x00\
            \x06\x01\x01\x00\x02\x00\x00\x00",
        events: &[],
        shows_variable: true,
    },
    // v1 := 7; (v2 := -2; v1 := v1 / v2)
    Case {
        name: "12, 7 / -2",
        table: b"\x0d\x00\x05\x00\x00\x00\x00\x00\
            \x01\x01\x01\x00\x07\x00\x00\x00\
            \x0d\x00\x03\x00\x00\x00\x00\x00\
            \x01\x02\x01\x00\xfe\xff\xff\xff\
            \x06\x01\x01\x00\x02\x00\x00\x00",
        events: &[],
        shows_variable: true,
    },
    // v1 := 5; v1 := v1 - v1
    Case {
        name: "12, less itself",
        table: b"\x0d\x00\x03\x00\x00\x00\x00\x00\
            \x01\x01\x01\x00\x05\x00\x00\x00\
            \x04\x01\x01\x00\x01\x00\x00\x00",
        events: &[],
        shows_variable: true,
    },
    // v1 := 5; v1 := 1 if v1 < v1, else 0
    Case {
        name: "12, below itself",
        table: b"\x0d\x00\x03\x00\x00\x00\x00\x00\
            \x01\x01\x01\x00\x05\x00\x00\x00\
            \x05\x01\x01\x00\x01\x00\x00\x00",
        events: &[],
        shows_variable: true,
    },
];
