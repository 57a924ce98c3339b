// The remaining program: how many records it has, and writing them.
ghost use Rattle.std.specs.Prelude.{◌≡◌, ◌+◌, ◌*◌, ◌<◌, ◌≤◌, length};
ghost use Rattle.std.proofs.Math.Option.{none};
ghost use Rattle.std.proofs.lemmas.List.Edits.{sets};
ghost use Rattle.rules.specs.Stages.{first_refusal};
ghost use Rattle.rules.specs.Limits.{record_bytes};
ghost use Rattle.rules.specs.Tree.{span_of};
ghost use Rattle.rules.specs.Table.{span_at, program_of};
ghost use Rattle.rules.specs.Marks.{marks_stages, at_rest};
ghost use Rattle.rules.specs.Calls.{onto};
ghost use Rattle.rules.specs.Remaining.{records_for};
ghost use Rattle.table.specs.Places.{Place, tree_of};
ghost use Rattle.marks.specs.Cursors.{tree};
ghost use Rattle.marks.specs.Fitting.{Sound};
ghost use Rattle.marks.specs.Rest.{rest_span, rest_records, head_bytes, Rests};

use crate::counted::Counted;
use crate::marked::Marked;
use crate::resting::{Head, Rest, count_at, rest_at};
use rules::Limits;

// How many records remain at each place, from the last place on.
fn rests_of(program: Marked<'_>) -> [u16; Limits::RECORDS]
    requires { Sound program.table.now }
    ensures { Rests program.entry.table.now program.entry.marks.now 0 result }
{
    let mut rests = [0u16; Limits::RECORDS];
    for place in (0..program.records()).rev() {
        rests[place] = count_at(program.at(place), &rests) as u16;
    }
    rests
}

// Records, from record place `at` of a buffer on.
fn write_records(records: &[u8], out: &mut [u8], at: usize)
    requires { record_bytes * at + length records.now ≤ length out.old }
    ensures { out.new ≡ sets out.old (record_bytes * at) records.now }
{
    let from = Limits::RECORD_BYTES * at;
    // (One by one: copy_from_slice would call memmove, and the archive asks for memcpy and memset alone.)
    for (k, byte) in records.iter().enumerate() {
        out[from + k] = *byte;
    }
}

// A record with name and number 0.
fn write_head(out: &mut [u8], at: usize, kind: u8, span: usize)
    requires room { record_bytes * (at + 1) ≤ length out.old }
    requires two_bytes { span < 65536 }
    ensures { out.new ≡ sets out.old (record_bytes * at) (head_bytes kind span) }
{
    let [low, high] = (span as u16).to_le_bytes();
    let record: [u8; Limits::RECORD_BYTES] = [kind, 0, low, high, 0, 0, 0, 0];
    write_records(&record, out, at);
}

// The records of the construct at a place.
fn records_at(table: &[u8], place: usize) -> &[u8]
    requires sound { Sound table.now }
    requires place { Place table.now place }
    ensures { result.now ≡ records_for (tree_of table.now place) }
{
    let from = Limits::RECORD_BYTES * place;
    let bytes = Limits::RECORD_BYTES * table::span_at(table, place);
    &table[from..from + bytes]
}

// A construct, record for record.
fn write_whole(part: Marked<'_>, out: &mut [u8], at: usize)
    requires sound { Sound part.table.now }
    requires room { record_bytes * (at + span_at part.table.now part.place) ≤ length out.old }
    ensures { out.new ≡ sets out.old (record_bytes * at) (records_for (tree part.entry)) }
{
    write_records(records_at(part.table, part.place), out, at);
}

// What remains of a construct.
fn write_rest(part: Counted<'_>, out: &mut [u8], at: usize)
    requires { record_bytes * (at + rest_span part.at.marks.now (tree part.at)) ≤ length out.old }
    ensures { out.new ≡ sets out.old (record_bytes * at) (rest_records part.entry.at.marks.now (tree part.entry.at)) }
{
    let mut part = part;
    let mut at = at;
    // From each construct to the last part that remains of it: nothing is counted here.
    loop {
        match rest_at(part.at, part.rests) {
            Rest::Nothing => return,
            Rest::Whole => return write_whole(part.at, out, at),
            Rest::Only(only) => part = only,
            Rest::Both(head, first, other) => {
                write_head(out, at, head.number(), part.count());
                write_rest(first, out, at + 1);
                at = at + 1 + first.count();
                match head {
                    Head::Par(_) => part = other,
                    Head::Sequence | Head::Loop => return write_whole(other.at, out, at),
                }
            }
        }
    }
}

// How many records remain of a program: of one that is finished, the one that does nothing.
pub fn remaining_span(table: &[u8], marks: &[u8]) -> usize
    requires sound { Sound table.now }
    requires passes { first_refusal (marks_stages table.now marks.now) ≡ none }
    ensures records { result ≡ span_of (at_rest marks.now (program_of table.now)) }
    ensures two_bytes { result < 65536 }
{
    let program = Marked {
        table,
        marks,
        place: 0,
    };
    let rests = rests_of(program);
    Counted::of(program, &rests).count().max(1)
}

// The remaining program, at the front of a buffer that has room for it; the answer counts its records.
pub fn write_remaining(table: &[u8], marks: &[u8], out: &mut [u8]) -> usize
    requires sound { Sound table.now }
    requires passes { first_refusal (marks_stages table.now marks.now) ≡ none }
    requires room { record_bytes * span_of (at_rest marks.now (program_of table.now)) ≤ length out.old }
    ensures records { result ≡ span_of (at_rest marks.now (program_of table.now)) }
    ensures two_bytes { result < 65536 }
    ensures written { out.new ≡ onto (records_for (at_rest marks.now (program_of table.now))) out.old }
{
    let at = Marked {
        table,
        marks,
        place: 0,
    };
    let rests = rests_of(at);
    let program = Counted::of(at, &rests);
    let span = program.count();
    if span == 0 {
        // The record that does nothing.
        write_head(out, 0, 0, 1);
        return 1;
    }
    write_rest(program, out, 0);
    span
}
