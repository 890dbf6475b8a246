// The batch: opened, undone, kept. It saves the present part, guarantees and rows alike.
ghost use Rattle.std.specs.Prelude.{◌≡◌, true, [], ◌∷◌, ◌≤◌, length};
ghost use Rattle.wire.specs.Regions.{Apart};
ghost use Rattle.rules.specs.declared.Request.{Request};
ghost use Rattle.rules.specs.Limits.{most_hours, most_rows, book_size};
ghost use Rattle.rules.specs.Requests.{open_batch, undo, keep, close_gate};
ghost use Rattle.image.specs.Layout.{saved_offset, part_size};
ghost use Rattle.image.specs.Valid.{is_sound, book_in, book_bytes};
ghost use Rattle.book.specs.Kinds.{outcome_on, book_after};
ghost use Rattle.batches.specs.Rooms.{HasPart, NoRowsPast, part_copied, part_cleared};
ghost use Rattle.batches.specs.Saving.{FaultOfEach, batch_opened, batch_ended};

use book::state::{batch_open, phase, row_count, saved_row_count};
use image::layout::{
    FLAG_OFFSET, NETS_OFFSET, PART_SIZE, PRESENT_OFFSET, ROW_WIDTH, ROWS_OFFSET, SAVED_OFFSET,
};
use rules::Refusal;
use rules::phases::Phase;
use wire::numbers::put;
use wire::regions::{clear_at, copy_within};

// What opening a batch and closing the gate are refused for.
pub fn outside_batch(book: &[u8]) -> Result<(), Refusal>
    requires { is_sound book.now ≡ true }
    ensures { FaultOfEach (open_batch ∷ close_gate ∷ []) (book_in book.now) result }
{
    if phase(book) != Phase::Registration {
        return Err(Refusal::WrongPhase);
    }
    if batch_open(book) {
        return Err(Refusal::BatchOpen);
    }
    Ok(())
}

// What undo and keep are refused for.
pub fn inside_batch(book: &[u8]) -> Result<(), Refusal>
    requires { is_sound book.now ≡ true }
    ensures { FaultOfEach (undo ∷ keep ∷ []) (book_in book.now) result }
{
    if phase(book) != Phase::Registration {
        return Err(Refusal::WrongPhase);
    }
    if batch_open(book) {
        return Ok(());
    }
    Err(Refusal::NoBatch)
}

// Copies a part over another. Past the first n rows both are zero up to their net positions, so that this room is left alone.
fn copy_part(book: &mut [u8], from: usize, to: usize, n: u16)
    requires has_part { HasPart book.old from × HasPart book.old to × Apart from to (part_size most_hours) }
    requires rows_end { (n ≤ most_rows) × NoRowsPast book.old from n × NoRowsPast book.old to n }
    ensures { book.new ≡ part_copied book.old from to }
{
    copy_within(book, from, to, ROWS_OFFSET + ROW_WIDTH * (n as usize));
    copy_within(
        book,
        from + NETS_OFFSET,
        to + NETS_OFFSET,
        PART_SIZE - NETS_OFFSET,
    );
}

// Clears a part that has no more than n rows.
fn clear_part(book: &mut [u8], at: usize, n: u16)
    requires has_part { HasPart book.old at }
    requires rows_end { (n ≤ most_rows) × NoRowsPast book.old at n }
    ensures { book.new ≡ part_cleared book.old at }
{
    clear_at(book, at, ROWS_OFFSET + ROW_WIDTH * (n as usize));
    clear_at(book, at + NETS_OFFSET, PART_SIZE - NETS_OFFSET);
}

// Ends the batch: clears the saved part, which has no more than n rows, and the flag.
fn end_batch(book: &mut [u8], n: u16)
    requires whole_book { length book.old ≡ book_size }
    requires rows_end { (n ≤ most_rows) × NoRowsPast book.old (saved_offset most_hours) n }
    ensures { book.new ≡ batch_ended book.old }
{
    clear_part(book, SAVED_OFFSET, n);
    put::<u8>(book, FLAG_OFFSET, 0);
}

// Saves the present part, and sets the flag.
fn save(book: &mut [u8])
    requires { is_sound book.old ≡ true }
    ensures { book.new ≡ batch_opened book.old }
{
    let rows = row_count(book);
    copy_part(book, PRESENT_OFFSET, SAVED_OFFSET, rows);
    put::<u8>(book, FLAG_OFFSET, 1);
}

// Kind 5: saves the present part.
pub fn open_batch(book: &mut [u8]) -> Result<u16, Refusal>
    requires { is_sound book.old ≡ true }
    ensures answer { (q : Request) → result ≡ outcome_on open_batch (book_in book.old) q }
    ensures bytes { (q : Request) → book.new ≡ book_bytes (book_after open_batch (book_in book.old) q) }
    ensures still { is_sound book.new ≡ true }
{
    outside_batch(book)?;
    save(book);
    Ok(0)
}

// Kind 6: puts back what the batch saved, guarantees and rows alike, and gives the number of rows registered since.
pub fn undo(book: &mut [u8]) -> Result<u16, Refusal>
    requires { is_sound book.old ≡ true }
    ensures answer { (q : Request) → result ≡ outcome_on undo (book_in book.old) q }
    ensures bytes { (q : Request) → book.new ≡ book_bytes (book_after undo (book_in book.old) q) }
    ensures still { is_sound book.new ≡ true }
{
    inside_batch(book)?;
    let rows = row_count(book);
    let saved = saved_row_count(book);
    let since = rows - saved;
    copy_part(book, SAVED_OFFSET, PRESENT_OFFSET, rows);
    end_batch(book, saved);
    Ok(since)
}

// Kind 7: keeps the present part, and clears what the batch saved.
pub fn keep(book: &mut [u8]) -> Result<u16, Refusal>
    requires { is_sound book.old ≡ true }
    ensures answer { (q : Request) → result ≡ outcome_on keep (book_in book.old) q }
    ensures bytes { (q : Request) → book.new ≡ book_bytes (book_after keep (book_in book.old) q) }
    ensures still { is_sound book.new ≡ true }
{
    inside_batch(book)?;
    let saved = saved_row_count(book);
    end_batch(book, saved);
    Ok(0)
}
