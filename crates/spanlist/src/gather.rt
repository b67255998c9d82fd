// Gathers the numbers of the spans of a payload.
ghost use Rattle.std.specs.Prelude.{◌≡◌, OnOk, OnErr, Ok, Err, ◌++◌, ◌∷◌, [], nat_lt, if◌then◌else◌, vec_len, vec_capacity};

use crate::refusal::Refusal;
use listing::row::SpanRow;
use reading::receiver::RowReceiver;
use std::alloc::{AllocError, Global};

// How many traces and spans are gathered at most.
pub const MAX_TRACES: usize = 64;

pub const MAX_SPANS: usize = 512;

// Two tables of a fixed size, made at set up: so a reading takes no memory, and a trace is no vector of its own.
// A capacity is exact, as `with_capacity` promises, and so is the limit.
#[derive(Drop)]
pub struct Gatherer {
    pub rows: Vec<SpanRow>,
    // 0, and for each trace how many rows there are up to its end
    pub bounds: Vec<usize>,
    // refused once there was more than is gathered
    room: Result<(), Refusal>,
}

impl Gatherer {
    pub fn new(heap: Global) -> Result<Gatherer, AllocError> {
        let rows = Vec::with_capacity(heap, MAX_SPANS)?;
        let mut bounds = Vec::with_capacity(heap, MAX_TRACES + 1)?;
        bounds.push_reserved(0);
        Ok(Gatherer {
            rows,
            bounds,
            room: Ok(()),
        })
    }

    // Refuses where there was more than is gathered at most.
    pub fn check_room(&self) -> Result<(), Refusal>
        ensures { result ≡ self.now.room }
    {
        self.room
    }
}

// Appends to a table where it has room; it takes no memory.
fn push_in_room<T: Drop>(table: &mut Vec<T>, one: T) -> Result<(), Refusal>
    ensures pushed { OnOk result (table.new.items ≡ table.old.items ++ one ∷ []) }
    ensures full { OnErr result (table.new ≡ table.old) }
    ensures answer { result ≡ (if nat_lt (vec_len table.old) (vec_capacity table.old) then Ok tt else Err Refusal.Shortage) }
{
    if table.len() >= table.capacity() {
        return Err(Refusal::Shortage);
    }
    table.push_reserved(one);
    Ok(())
}

impl RowReceiver for Gatherer {
    ghost Meaning = { Unit {0} };

    ghost state = { λ _. tt };

    ghost rowed = { λ m _. m };

    ghost ended = { λ m. m };

    fn span(&mut self, row: SpanRow) {
        self.room = self.room.and(push_in_room(&mut self.rows, row));
    }

    fn trace(&mut self) {
        let end = self.rows.len();
        self.room = self.room.and(push_in_room(&mut self.bounds, end));
    }
}
