// Where each event is awaited, so that a push looks for its listeners there alone.
ghost use Rattle.std.specs.Prelude.{◌≡◌, ◌≤◌, ◌<◌};
ghost use Rattle.rules.specs.Limits.{most_records};
ghost use Rattle.rules.specs.Table.{records_of};
ghost use Rattle.walks.specs.Listening.{Listens, Nobody, Tight, reach_of, Noted, Heard};

use crate::part::Reach;
use rules::Limits;
use table::{Kind, Source, name_at, read_kind};

// How many events each source has.
const EVENTS: usize = Limits::NAME + 1;

// The reach of each event's listeners, by the event's number.
#[derive(Drop)]
pub struct Listeners {
    pub input: [Reach; EVENTS],
    pub internal: [Reach; EVENTS],
}

impl Listeners {
    // Where nobody listens.
    const NOWHERE: Reach = Reach {
        from: Limits::RECORDS,
        to: 0,
    };

    // Where nothing is known.
    const ANYWHERE: Reach = Reach {
        from: 0,
        to: Limits::RECORDS,
    };

    // Nobody listens.
    pub const NOBODY: Listeners = Listeners {
        input: [Self::NOWHERE; EVENTS],
        internal: [Self::NOWHERE; EVENTS],
    };

    // All listeners of the program count, where nobody did. (In place: what a function hands out is copied, and this is 2,048 bytes.)
    pub fn listen(&mut self, table: &[u8])
        requires small { records_of table.now ≤ most_records }
        requires nobody { Nobody self.old }
        ensures listens { Listens table.now self.new }
        ensures tight { Tight table.now self.new }
    {
        for i in 0..table.len() / Limits::RECORD_BYTES {
            self.hear(table, i);
        }
    }

    // The same, as a value.
    pub fn of_program(table: &[u8]) -> Listeners
        requires { records_of table.now ≤ most_records }
        ensures listens { Listens table.now result }
        ensures tight { Tight table.now result }
    {
        let mut listeners = Self::NOBODY;
        listeners.listen(table);
        listeners
    }

    // The record at place i counts for the event that it waits for.
    fn hear(&mut self, table: &[u8], i: usize)
        requires inside { i < records_of table.now }
        requires small { records_of table.now ≤ most_records }
        ensures { Heard table.now i self.old self.new }
    {
        let Ok(kind) = read_kind(table, i) else {
            return;
        };
        match kind {
            Kind::Await(source) | Kind::Every(source) => self.note(source, name_at(table, i), i),
            _ => {}
        }
    }

    // One listener more, at place i.
    fn note(&mut self, source: Source, event: usize, i: usize)
        requires { i < most_records }
        ensures { Noted source event i self.old self.new }
    {
        if event < EVENTS {
            match source {
                Source::Input => self.input[event] = self.input[event].widened(i),
                Source::Internal => self.internal[event] = self.internal[event].widened(i),
            }
        }
    }

    // Whoever awaits the event stands there; of an event over 63, anywhere.
    pub fn reach(&self, source: Source, event: usize) -> Reach
        ensures { result ≡ reach_of self.now source event }
    {
        let row = match source {
            Source::Input => &self.input,
            Source::Internal => &self.internal,
        };
        row.get(event).copied().unwrap_or(Self::ANYWHERE)
    }
}
