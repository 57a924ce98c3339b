// The fields of the record at a place inside a table, by table and place: their shape need not be right (`Construct` has both where it is).
ghost use Rattle.std.specs.Prelude.{◌≡◌, ◌+◌, ◌<◌, ◌≤◌};
ghost use Rattle.rules.specs.Limits.{record_bytes};
ghost use Rattle.rules.specs.Table.{byte_at, kind_at, name_at, span_at, number_at, second_at, records_of};
ghost use Rattle.table.specs.Kinds.{children_of};
ghost use Rattle.table.specs.Named.{ReadsKind};
ghost use Rattle.table.specs.Places.{bits_at};

use crate::kind::{Kind, NoKind};
use memory::signed;
use rules::Limits;

// Byte k of the record at place i.
fn byte_at(table: &[u8], i: usize, k: usize) -> u8
    requires place { i < records_of table.now }
    requires byte { k < record_bytes }
    ensures { result ≡ byte_at table.now i k }
{
    table[Limits::RECORD_BYTES * i + k]
}

// The number of the kind, also one over 19. Code asks for the kind itself, by `read_kind` or `Construct::kind`.
pub fn kind_at(table: &[u8], i: usize) -> usize
    requires { i < records_of table.now }
    ensures number { result ≡ kind_at table.now i }
    ensures byte { result < 256 }
{
    usize::from(byte_at(table, i, 0))
}

// The kind, or a number over 19.
pub fn read_kind(table: &[u8], i: usize) -> Result<Kind, NoKind>
    requires { i < records_of table.now }
    ensures { ReadsKind (kind_at table.now i) result }
{
    Kind::try_from(kind_at(table, i) as u8)
}

pub fn name_at(table: &[u8], i: usize) -> usize
    requires { i < records_of table.now }
    ensures name { result ≡ name_at table.now i }
    ensures byte { result < 256 }
{
    usize::from(byte_at(table, i, 1))
}

pub fn span_at(table: &[u8], i: usize) -> usize
    requires { i < records_of table.now }
    ensures span { result ≡ span_at table.now i }
    ensures two_bytes { result < 65536 }
{
    usize::from(u16::from_le_bytes([byte_at(table, i, 2), byte_at(table, i, 3)]))
}

// The number of a record as its 32 bits.
pub fn bits_at(table: &[u8], i: usize) -> u32
    requires { i < records_of table.now }
    ensures { result ≡ bits_at table.now i }
{
    let b0 = byte_at(table, i, 4);
    let b1 = byte_at(table, i, 5);
    let b2 = byte_at(table, i, 6);
    let b3 = byte_at(table, i, 7);
    u32::from_le_bytes([b0, b1, b2, b3])
}

pub fn number_at(table: &[u8], i: usize) -> i32
    requires { i < records_of table.now }
    ensures { result ≡ number_at table.now i }
{
    signed(bits_at(table, i))
}

// The place of the second child, where the record at place i has a first.
pub fn second_at(table: &[u8], i: usize) -> usize
    requires { i + 1 < records_of table.now }
    ensures { result ≡ second_at table.now i }
{
    i + 1 + span_at(table, i + 1)
}

// How many children a kind of this number has; 3 for a number over 19. By number, as docs/PROMISES.md has it; code asks `Kind::children`.
#[tactic(auto, unfolding(crate::specs::Kinds::children_of))]
pub fn children_of(kind: usize) -> u8
    ensures children { result ≡ children_of kind }
    ensures most { result ≤ 3 }
{
    match kind {
        0..=11 => 0,
        12 | 13 | 17 | 18 => 2,
        14..=16 | 19 => 1,
        _ => 3,
    }
}

pub fn children_at(table: &[u8], i: usize) -> u8
    requires { i < records_of table.now }
    ensures children { result ≡ children_of (kind_at table.now i) }
    ensures most { result ≤ 3 }
{
    children_of(kind_at(table, i))
}
