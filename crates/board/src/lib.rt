// The engine for C, whose slices are a pointer and a length: `include/board.h` declares these functions.
// It uses ballot, engine, rehearsal, shrinking, gains, printing and sheets, and adds nothing to what they promise but
// the numbers of refusals.
#![tactic(auto)]

ghost use Rattle.std.specs.Prelude.{◌≤◌, ◌≡◌, length};
ghost use Rattle.ballot.specs.Table.{refusal};
ghost use Rattle.state.specs.Layout.{size};
ghost use Rattle.text.specs.Wrote.{over};
ghost use Rattle.rehearsal.specs.Rehearsal.{reported, state_left, report_most};
ghost use Rattle.shrinking.specs.Shrunk.{shrunk, shrunk_most};
ghost use Rattle.gains.specs.Gain.{gain};
ghost use Rattle.gains.specs.File.{file_calls};
ghost use Rattle.sheets.specs.Sheet.{sheet_most};
ghost use Rattle.sheets.specs.Found.{sheet_answer, found, found_number, found_offset, found_length};
ghost use Rattle.printing.specs.Written.{written, sheet_left, written_number, written_length};
ghost use Rattle.engine.specs.Engine.{step_answer, step_bytes, fresh_answer, fresh_bytes};

use base::refusal::answer;

// Judges a table; the answer is 0, or the refusal.
#[unsafe(no_mangle)]
pub extern "C" fn board_check_table(table: &[u8]) -> u8
    ensures { result ≡ refusal table.now }
{
    answer(ballot::check_table(table))
}

// The length of a state buffer.
#[unsafe(no_mangle)]
pub extern "C" fn board_state_length() -> usize
    ensures { result ≡ size }
{
    state::layout::SIZE
}

// Makes a state buffer fresh; the answer is 0, or the refusal.
#[unsafe(no_mangle)]
pub extern "C" fn board_fresh(table: &[u8], state: &mut [u8]) -> u8
    ensures { (result ≡ fresh_answer table.now state.old)
        × (state.new ≡ fresh_bytes table.now state.old) }
{
    answer(engine::fresh(table, state))
}

// Takes a step of thirteen bytes; the answer is 0, or the refusal.
#[unsafe(no_mangle)]
pub extern "C" fn board_step(table: &[u8], state: &mut [u8], step: &[u8]) -> u8
    ensures { (result ≡ step_answer table.now state.old step.now)
        × (state.new ≡ step_bytes table.now state.old step.now) }
{
    answer(engine::step(table, state, step))
}

// The length of an output that has room for every report.
#[unsafe(no_mangle)]
pub extern "C" fn board_report_most() -> usize
    ensures { result ≡ report_most }
{
    rehearsal::REPORT_MOST
}

// Rehearses the input, a table and steps, and answers the report's length; as much of the report as fits is written.
#[unsafe(no_mangle)]
pub extern "C" fn board_rehearse(input: &[u8], state: &mut [u8], out: &mut [u8]) -> usize
    ensures value { (result ≡ length (reported input.now state.old)) × (result ≤ report_most) }
    ensures out_after { out.new
        ≡ over out.old 0 (reported input.now state.old) }
    ensures state_after { state.new ≡ state_left input.now state.old }
{
    rehearsal::rehearse(input, state, out)
}

// The length of an output that has room for every list of step numbers.
#[unsafe(no_mangle)]
pub extern "C" fn board_shrink_most() -> usize
    ensures { result ≡ shrunk_most }
{
    shrinking::SHRUNK_MOST
}

// Shrinks the rehearsal of the input, a table and steps, and answers the length of the step numbers that are left, one
// a line; as much of the text as fits is written.
#[unsafe(no_mangle)]
pub extern "C" fn board_shrink(input: &[u8], out: &mut [u8]) -> usize
    ensures value { (result ≡ length (shrunk input.now)) × (result ≤ shrunk_most) }
    ensures out_after { out.new ≡ over out.old 0 (shrunk input.now) }
{
    shrinking::shrink(input, out)
}

// How many entries the steps of a file can add to the bag: its 13-byte steps 9, 12 and 15, different steps 16, and
// steps 11, at most 8 for each peer byte.
#[unsafe(no_mangle)]
pub extern "C" fn board_gain(steps: &[u8]) -> usize
    ensures { result ≡ gain (file_calls steps.now) }
{
    gains::gain(steps)
}

// The length of a buffer that has room for every sheet.
#[unsafe(no_mangle)]
pub extern "C" fn board_sheet_most() -> usize
    ensures { result ≡ sheet_most }
{
    sheets::SHEET_MOST
}

// Writes the sheet of a period's board over the start of a buffer, and its length; the answer is 0, or the refusal,
// which alters neither.
#[unsafe(no_mangle)]
pub extern "C" fn board_write_sheet(
    table: &[u8],
    state: &[u8],
    period: u8,
    sheet: &mut [u8],
    long: &mut usize,
) -> u8
    ensures value { result ≡ written_number
        (written table.now state.now period (length sheet.old)) }
    ensures sheet_after { sheet.new
        ≡ sheet_left table.now state.now period sheet.old }
    ensures long_after { long.new ≡ written_length long.old
        (written table.now state.now period (length sheet.old)) }
{
    match printing::write_sheet(table, state, period, sheet) {
        Ok(n) => {
            *long = n;
            0
        }
        Err(refusal) => refusal.number(),
    }
}

// Judges a sheet; the answer is 0, or 16.
#[unsafe(no_mangle)]
pub extern "C" fn board_check_sheet(sheet: &[u8]) -> u8
    ensures { result ≡ sheet_answer sheet.now }
{
    answer(sheets::check_sheet(sheet))
}

// Gives the offset and the length of an item's text in a sheet; the answer is 0, or the refusal, which alters neither.
#[unsafe(no_mangle)]
pub extern "C" fn board_sheet_item(
    sheet: &[u8],
    item: u8,
    start: &mut usize,
    long: &mut usize,
) -> u8
    ensures value { result ≡ found_number (found sheet.now item) }
    ensures start_after { start.new
        ≡ found_offset start.old (found sheet.now item) }
    ensures long_after { long.new
        ≡ found_length long.old (found sheet.now item) }
{
    match sheets::find_item(sheet, item) {
        Ok(part) => {
            *start = part.offset;
            *long = part.length;
            0
        }
        Err(r) => r.number(),
    }
}
