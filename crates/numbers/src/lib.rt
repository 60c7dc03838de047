// Answers as numbers, written to places that are lent.
#![tactic(auto)]

ghost use Rattle.std.specs.Prelude.{◌≡◌};
ghost use Rattle.format.specs.Answers as Answers;
ghost use Rattle.format.specs.Answers.{fields};
ghost use Rattle.format.specs.Refusals.{placed, refusal_number};
ghost use Rattle.walk.specs.State.{checked_answer};
ghost use Rattle.numbers.specs.Answer.{telling, checked_number, checked_place, checked_events, checked_changes, number_of, place_of, cell_of, entry_in_numbers};

use entry::{Cell, Change};
use events::Counts;
use format::{Entry, Fault, Part};

// A refusal as it is told in numbers: its number, any of a byte, and its place.
#[derive(Clone, Copy, Debug, PartialEq, Eq)]
pub struct Refused {
    pub number: u8,
    pub place: usize,
}

impl From<Fault> for Refused {
    ghost from_gives = { λ f r. r ≡ record { number = refusal_number f.refusal; place = f.place } };

    fn from(f: Fault) -> Refused {
        Refused {
            number: f.refusal.number(),
            place: f.place,
        }
    }
}

// An answer with its refusal in numbers.
pub fn by_number<A: Copy>(x: Result<A, Fault>) -> Result<A, Refused>
    ensures { telling result ≡ placed x }
{
    Ok(x?)
}

// An answer of Check in numbers.
// kept: 0 for an answer, or the refusal's number: the C interface.
pub fn put_checked(
    x: Result<Counts, Refused>,
    place: &mut usize,
    events: &mut usize,
    changes: &mut usize,
) -> u32
    ensures { (y : Answers.Checked) → telling x ≡ checked_answer y → (result ≡ checked_number y) × (place.new ≡ checked_place y) × (events.new ≡ checked_events y) × (changes.new ≡ checked_changes y) }
{
    match x {
        Err(f) => {
            *place = f.place;
            *events = 0;
            *changes = 0;
            u32::from(f.number)
        }
        Ok(c) => {
            *place = 0;
            *events = c.events;
            *changes = c.changes;
            0
        }
    }
}

// The five numbers of a listing entry.
#[tactic(auto, unfolding(format::specs::Answers::fields))]
pub fn put_entry(out: &mut [u32; 5], e: Entry)
    ensures { out.new ≡ fields e }
{
    *out = e.into();
}

// The listing entry of five numbers.
#[tactic(auto, unfolding(crate::specs::Answer::entry_in_numbers))]
pub fn entry_in(x: &[u32; 5]) -> Entry
    ensures { result ≡ entry_in_numbers x.now }
{
    Entry::from(*x)
}

// The table of a change.
pub fn put_table(x: Change, table: &mut u64, columns: &mut usize)
    ensures table { table.new ≡ x.table }
    ensures columns { columns.new ≡ x.columns }
{
    *table = x.table;
    *columns = x.columns;
}

// A part of the log.
pub fn put_part(p: Part, place: &mut usize, length: &mut usize)
    ensures place { place.new ≡ p.place }
    ensures length { length.new ≡ p.size }
{
    *place = p.place;
    *length = p.size;
}

// A cell: eight numbers for a value that is there, none for a refused one.
pub fn put_cell(x: Result<Cell, Refused>, cell: &mut [u64; 8]) -> u32
    ensures { (result ≡ number_of (telling x)) × (cell.new ≡ cell_of cell.old (telling x)) }
{
    match x {
        Err(f) => {
            return u32::from(f.number);
        }
        Ok(Cell::Absent) => cell::put_bare(cell, 0, 0),
        Ok(Cell::Null) => cell::put_bare(cell, 0, 256),
        Ok(Cell::Stored(code, v)) => cell::put_value(cell, 0, code, v),
    }
    0
}

// The place of a refused value, else 0.
pub fn place_of(x: Result<Cell, Refused>) -> usize
    ensures { result ≡ place_of (telling x) }
{
    match x {
        Err(f) => f.place,
        Ok(_) => 0,
    }
}
