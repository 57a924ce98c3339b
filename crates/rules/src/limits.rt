// The limits and the announced numbers, for code. Each is proved equal to its definition in specs/Limits.antt.
ghost use Rattle.std.specs.Prelude.{◌≡◌};
ghost use Rattle.rules.specs.Limits.{record_bytes, most_records, most_table_bytes, most_loops, variables, most_name, most_list_bytes, list_too_long, runner_outputs, top_total};
ghost use Rattle.rules.specs.Limits.{most_emitted, most_level, most_steps, most_outputs};

// All code cites a limit by its name here.
#[derive(Drop)]
pub struct Limits {}

impl Limits {
    // Of a record of the table, an event of a list, an output.
    pub const RECORD_BYTES: usize = 8;

    pub const RECORDS: usize = 256;

    pub const TABLE_BYTES: usize = 2048;

    pub const LOOPS: usize = 8;

    pub const VARIABLES: usize = 64;
    // The highest number of a variable, an event or an output.
    pub const NAME: usize = 63;

    pub const LIST_BYTES: usize = 65536;
    // The place of a list that is too long.
    pub const LIST_TOO_LONG: usize = 8192;
    // The outputs for which the runner has room.
    pub const RUNNER_OUTPUTS: usize = 8192;
    // Where the running totals stop.
    pub const TOP_TOTAL: u64 = u64::MAX;
}

// The constants once more, as one value: a `const` has no clause of its own, so a function promises that each equals its definition, of what it answers.
#[derive(Clone, Copy, Debug, PartialEq, Eq)]
pub struct Constants {
    pub record_bytes: usize,
    pub records: usize,
    pub table_bytes: usize,
    pub loops: usize,
    pub variables: usize,
    pub name: usize,
    pub list_bytes: usize,
    pub list_too_long: usize,
    pub runner_outputs: usize,
    pub top_total: u64,
}

impl Limits {
    pub fn constants() -> Constants
        ensures a_record { result.record_bytes ≡ record_bytes }
        ensures records_at_most { result.records ≡ most_records }
        ensures a_table { result.table_bytes ≡ most_table_bytes }
        ensures loops_at_most { result.loops ≡ most_loops }
        ensures all_variables { result.variables ≡ variables }
        ensures name_at_most { result.name ≡ most_name }
        ensures a_list { result.list_bytes ≡ most_list_bytes }
        ensures place_of_a_long_list { result.list_too_long ≡ list_too_long }
        ensures outputs_of_the_runner { result.runner_outputs ≡ runner_outputs }
        ensures where_totals_stop { result.top_total ≡ top_total }
    {
        Constants {
            record_bytes: Limits::RECORD_BYTES,
            records: Limits::RECORDS,
            table_bytes: Limits::TABLE_BYTES,
            loops: Limits::LOOPS,
            variables: Limits::VARIABLES,
            name: Limits::NAME,
            list_bytes: Limits::LIST_BYTES,
            list_too_long: Limits::LIST_TOO_LONG,
            runner_outputs: Limits::RUNNER_OUTPUTS,
            top_total: Limits::TOP_TOTAL,
        }
    }

    // The most of a reaction: internal events, level, steps and outputs. Each takes the counts that its definition takes, which differ, and so no struct of them all.
    pub fn emitted(emits: u16, loops: u8) -> u64
        ensures { result ≡ most_emitted emits loops }
    {
        u64::from(emits) * (u64::from(loops) + 1)
    }

    pub fn level(emits: u16, loops: u8) -> u64
        ensures { result ≡ most_level (most_emitted emits loops) }
    {
        1 + Limits::emitted(emits, loops)
    }

    pub fn steps(records: u16, emits: u16, loops: u8) -> u64
        ensures { result ≡ most_steps records loops (most_emitted emits loops) }
    {
        5 * u64::from(records) * (u64::from(loops) + 1)
            + Limits::level(emits, loops) * (u64::from(records) + 2)
    }

    pub fn outputs(outside: u16, inside: u16, emits: u16, loops: u8) -> u64
        ensures { result ≡ most_outputs outside inside loops (most_emitted emits loops) }
    {
        u64::from(outside) * (u64::from(loops) + 1)
            + u64::from(inside) * Limits::level(emits, loops)
    }
}
