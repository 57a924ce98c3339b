// An event of a list or an output of a call: laid out as a record of the table, with its name at byte 0 and its value at bytes 4 to 7.
ghost use Rattle.std.specs.Prelude.{◌≡◌};
ghost use Rattle.table.specs.Entries.{entry_of, entry_at};

use memory::number_of;
use rules::Limits;

#[derive(Clone, Copy, Debug, PartialEq, Eq)]
pub struct Entry {
    pub name: u8,
    pub value: i32,
}

impl From<[u8; Limits::RECORD_BYTES]> for Entry {
    ghost from_gives = { λ bytes e. e ≡ entry_of bytes 0 };

    fn from(bytes: [u8; Limits::RECORD_BYTES]) -> Self {
        let [name, _, _, _, b0, b1, b2, b3] = bytes;
        Entry {
            name,
            value: number_of(b0, b1, b2, b3),
        }
    }
}

// Entry i; zeros where there is none.
pub fn entry_at(bytes: &[u8], i: usize) -> Entry
    ensures { result ≡ entry_at bytes.now i }
{
    let (records, _) = bytes.as_chunks::<{ Limits::RECORD_BYTES }>();
    match records.get(i) {
        Some(record) => Entry::from(*record),
        None => Entry { name: 0, value: 0 },
    }
}
