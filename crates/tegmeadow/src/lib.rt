// The library for C and for Rust: the questions of `binlog`, asked of a log by the number of a change, and those of `entry`, asked at a listing
// entry, as exported functions. They take and give numbers alone: a slice is a pointer and a length, what is answered is written to places that
// the caller lends, and the number returned is 0, or the refusal's (01, Refusal numbers). Any bytes and any numbers may be handed in. A name or a
// text is a place and a length in the log, 0 and 0 where there is none.
#![tactic(auto)]

ghost use Rattle.std.specs.Prelude.{◌≡◌, ◌/◌, length as size};
ghost use Rattle.format.specs.Walk.{judge};
ghost use Rattle.format.specs.Answers.{check_of, list_of, written, change_of, value_of};
ghost use Rattle.format.specs.Parts.{database_of, table_of, text_of};
ghost use Rattle.format.specs.AtEntry.{change_at_entry, database_at, table_at, value_at, text_at_entry};
ghost use Rattle.listed.specs.Values.{listing_cells};
ghost use Rattle.cells.specs.Cells.{leading, after};
ghost use Rattle.numbers.specs.Answer.{checked_number, checked_place, checked_events, checked_changes, counted, changed_number, changed_place, entry_after, table_after, columns_after, valued_number, valued_place, cell_after, entry_in_numbers};

use numbers::{
    by_number, entry_in, place_of, put_cell, put_checked, put_entry, put_part, put_table,
};

// Check: 0 for a log that is accepted, with how many events and changes it has, the place 0; else the refusal's number, its place, and counts of 0.
// kept: 0 for an answer, or the refusal's number, here and below: the C interface.
#[unsafe(no_mangle)]
pub extern "C" fn tegmeadow_check(
    log: &[u8],
    place: &mut usize,
    events: &mut usize,
    changes: &mut usize,
) -> u32
    ensures answer { result ≡ checked_number (check_of (judge log.now)) }
    ensures place { place.new ≡ checked_place (check_of (judge log.now)) }
    ensures events { events.new ≡ checked_events (check_of (judge log.now)) }
    ensures changes { changes.new ≡ checked_changes (check_of (judge log.now)) }
{
    put_checked(by_number(binlog::check(log)), place, events, changes)
}

// Listing: answers as Check does; where the log is accepted and the buffer is long enough, it holds five numbers for each change, and what is past
// them stays as it was. Refused, it stays as it was.
#[unsafe(no_mangle)]
pub extern "C" fn tegmeadow_list(
    log: &[u8],
    out: &mut [u32],
    place: &mut usize,
    events: &mut usize,
    changes: &mut usize,
) -> u32
    ensures answer { result ≡ checked_number (counted (list_of (size out.old) (judge log.now))) }
    ensures buffer { out.new ≡ written (list_of (size out.old) (judge log.now)) out.old }
    ensures place { place.new ≡ checked_place (counted (list_of (size out.old) (judge log.now))) }
    ensures events { events.new ≡ checked_events (counted (list_of (size out.old) (judge log.now))) }
    ensures changes { changes.new ≡ checked_changes (counted (list_of (size out.old) (judge log.now))) }
{
    put_checked(by_number(binlog::list(log, out)), place, events, changes)
}

// Change k, from 0: its listing entry, its table's id and its column count, and the place 0. Refused, only the place is written.
#[unsafe(no_mangle)]
pub extern "C" fn tegmeadow_change(
    log: &[u8],
    k: usize,
    place: &mut usize,
    entry: &mut [u32; 5],
    table: &mut u64,
    columns: &mut usize,
) -> u32
    ensures answer { result ≡ changed_number (change_of k (judge log.now)) }
    ensures place { place.new ≡ changed_place (change_of k (judge log.now)) }
    ensures entry { entry.new ≡ entry_after entry.old (change_of k (judge log.now)) }
    ensures table { table.new ≡ table_after table.old (change_of k (judge log.now)) }
    ensures columns { columns.new ≡ columns_after columns.old (change_of k (judge log.now)) }
{
    match binlog::change(log, k) {
        Err(f) => {
            *place = f.place;
            u32::from(f.refusal.number())
        }
        Ok(x) => {
            *place = 0;
            put_entry(entry, x.entry);
            put_table(x, table, columns);
            0
        }
    }
}

// Where the name of change k's database stands.
#[unsafe(no_mangle)]
pub extern "C" fn tegmeadow_database_name(
    log: &[u8],
    k: usize,
    place: &mut usize,
    length: &mut usize,
)
    ensures place { place.new ≡ (database_of k (judge log.now)).place }
    ensures length { length.new ≡ (database_of k (judge log.now)).size }
{
    put_part(binlog::database_part(log, k), place, length)
}

// Where the name of change k's table stands.
#[unsafe(no_mangle)]
pub extern "C" fn tegmeadow_table_name(log: &[u8], k: usize, place: &mut usize, length: &mut usize)
    ensures place { place.new ≡ (table_of k (judge log.now)).place }
    ensures length { length.new ≡ (table_of k (judge log.now)).size }
{
    put_part(binlog::table_part(log, k), place, length)
}

// Value of change k, side (0 before, 1 after) and column from 0, as eight numbers: 0 for absent, 256 for null, else the type byte and the value's
// numbers, and the place 0. Refused, only the place is written.
#[unsafe(no_mangle)]
pub extern "C" fn tegmeadow_value(
    log: &[u8],
    k: usize,
    side: usize,
    column: usize,
    place: &mut usize,
    cell: &mut [u64; 8],
) -> u32
    ensures answer { result ≡ valued_number (value_of k side column (judge log.now)) }
    ensures place { place.new ≡ valued_place (value_of k side column (judge log.now)) }
    ensures cell { cell.new ≡ cell_after cell.old (text_of k side column (judge log.now)) (value_of k side column (judge log.now)) }
{
    let x = by_number(binlog::value(log, k, side, column));
    *place = place_of(x);
    put_cell(x, cell)
}

// Where the text or blob of that value stands.
#[unsafe(no_mangle)]
pub extern "C" fn tegmeadow_text(
    log: &[u8],
    k: usize,
    side: usize,
    column: usize,
    place: &mut usize,
    length: &mut usize,
)
    ensures place { place.new ≡ (text_of k side column (judge log.now)).place }
    ensures length { length.new ≡ (text_of k side column (judge log.now)).size }
{
    put_part(binlog::text_part(log, k, side, column), place, length)
}

// The change at a listing entry: its table's id and its column count; the number is 0 or 19. Refused, nothing is written.
#[unsafe(no_mangle)]
pub extern "C" fn tegmeadow_change_at(
    log: &[u8],
    entry: &[u32; 5],
    table: &mut u64,
    columns: &mut usize,
) -> u32
    ensures answer { result ≡ changed_number (change_at_entry log.now (entry_in_numbers entry.now)) }
    ensures table { table.new ≡ table_after table.old (change_at_entry log.now (entry_in_numbers entry.now)) }
    ensures columns { columns.new ≡ columns_after columns.old (change_at_entry log.now (entry_in_numbers entry.now)) }
{
    match entry::change_at(log, entry_in(entry)) {
        Err(f) => u32::from(f.refusal.number()),
        Ok(x) => {
            put_table(x, table, columns);
            0
        }
    }
}

// Where the name of the change's database stands, at a listing entry.
#[unsafe(no_mangle)]
pub extern "C" fn tegmeadow_database_name_at(
    log: &[u8],
    entry: &[u32; 5],
    place: &mut usize,
    length: &mut usize,
)
    ensures place { place.new ≡ (database_at log.now (entry_in_numbers entry.now)).place }
    ensures length { length.new ≡ (database_at log.now (entry_in_numbers entry.now)).size }
{
    put_part(entry::database_part_at(log, entry_in(entry)), place, length)
}

// Where the name of the change's table stands, at a listing entry.
#[unsafe(no_mangle)]
pub extern "C" fn tegmeadow_table_name_at(
    log: &[u8],
    entry: &[u32; 5],
    place: &mut usize,
    length: &mut usize,
)
    ensures place { place.new ≡ (table_at log.now (entry_in_numbers entry.now)).place }
    ensures length { length.new ≡ (table_at log.now (entry_in_numbers entry.now)).size }
{
    put_part(entry::table_part_at(log, entry_in(entry)), place, length)
}

// The value of a column on a side of a listing entry, as eight numbers; the number is 0 or 19. Refused, nothing is written.
#[unsafe(no_mangle)]
pub extern "C" fn tegmeadow_value_at(
    log: &[u8],
    entry: &[u32; 5],
    side: usize,
    column: usize,
    cell: &mut [u64; 8],
) -> u32
    ensures answer { result ≡ valued_number (value_at log.now (entry_in_numbers entry.now) side column) }
    ensures cell { cell.new ≡ cell_after cell.old (text_at_entry log.now (entry_in_numbers entry.now) side column) (value_at log.now (entry_in_numbers entry.now) side column) }
{
    let x = entry::value_at(log, entry_in(entry), side, column);
    put_cell(by_number(x), cell)
}

// Where the text or blob of that value stands.
#[unsafe(no_mangle)]
pub extern "C" fn tegmeadow_text_at(
    log: &[u8],
    entry: &[u32; 5],
    side: usize,
    column: usize,
    place: &mut usize,
    length: &mut usize,
)
    ensures place { place.new ≡ (text_at_entry log.now (entry_in_numbers entry.now) side column).place }
    ensures length { length.new ≡ (text_at_entry log.now (entry_in_numbers entry.now) side column).size }
{
    put_part(
        entry::text_part_at(log, entry_in(entry), side, column),
        place,
        length,
    )
}

// The values of the changes of a listing, or of a part of one, as cells of eight numbers, one after another: for each change every column of its
// before image, then of its after image, those that it has. It stops at the first that can't be read or finds no room; what is past the cells
// stays as it was. The answer is how many cells are written.
#[unsafe(no_mangle)]
pub extern "C" fn tegmeadow_values(log: &[u8], listing: &[u32], cells: &mut [u64]) -> usize
    ensures answer { result ≡ size (leading (size cells.old / 8) (listing_cells log.now listing.now)) }
    ensures cells { cells.new ≡ after 0 (leading (size cells.old / 8) (listing_cells log.now listing.now)) cells.old }
{
    listed::values(log, listing, cells)
}
