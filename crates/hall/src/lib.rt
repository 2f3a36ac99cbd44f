// From a period and a rehearsal to the sheet of that period's board: the work of the program `sheet`.
// It uses rehearsal to judge and to run the steps, and printing to write the sheet; of the report nothing is kept.
#![tactic(auto)]

ghost use Rattle.std.specs.Prelude.{◌≡◌, ◌≤◌, length};
ghost use Rattle.base.specs.Refusals.{answer_of};
ghost use Rattle.state.specs.Layout.{size};
ghost use Rattle.text.specs.Wrote.{over, Put};
ghost use Rattle.sheets.specs.Sheet.{sheet_most};
ghost use Rattle.printing.specs.Written.{Judged};
ghost use Rattle.rehearsal.specs.Input.{table_in};
ghost use Rattle.rehearsal.specs.Rehearsal.{last_state};
ghost use Rattle.rehearsal.specs.Running.{Taken};
ghost use Rattle.hall.specs.Hung.{rehearsal_in, asked_answer, shown, hung};

use base::refusal::Refusal;
use header::Head;
use printing::board::board_of;
use rehearsal::INPUT_MOST;
use rehearsal::input::{check_input, table_in};
use report::lines::put_refused;
use state::layout::SIZE;
use text::Printer;

// The rehearsal after the period's byte.
fn rehearsal_in(input: &[u8]) -> &[u8]
    ensures { result.now ≡ rehearsal_in input.now }
{
    base::part_of(input, 1, input.len())
}

// The first refusal of the input that applies, if one does: of its length, or of the rehearsal in it.
#[tactic(auto, unfolding(crate::specs::Hung::asked_answer, rehearsal::specs::Input::input_refusal, base::specs::Refusals::first))]
fn check_asked(input: &[u8]) -> Result<(), Refusal>
    ensures { answer_of result ≡ asked_answer input.now }
{
    if INPUT_MOST < input.len() {
        return Err(Refusal::Input);
    }
    check_input(rehearsal_in(input))
}

// Writes the sheet of period p's board, or the line of the refusal.
fn put_shown(out: &mut Printer, table: &[u8], s: &[u8], h: Head, p: u8)
    requires { Judged table.now s.now h }
    ensures { Put out.old (shown table.now s.now p) out.new }
{
    if h.periods <= p {
        return put_refused(out, Refusal::Name);
    }
    match board_of(s, p) {
        Some(board) => printing::put_board(out, table, p, board, h.items),
        None => put_refused(out, Refusal::Unknown),
    }
}

// Runs the rehearsal's steps, and writes the sheet of period p's board then. The report is lent no room.
fn run(input: &[u8], table: &[u8], s: &mut [u8], p: u8, out: &mut Printer)
    requires { Taken input.now × (table.now ≡ table_in input.now) × (length s.old ≡ size) }
    ensures { Put out.old (shown (table_in input.now) (last_state input.now) p) out.new }
{
    rehearsal::run::play(input, table, s, &mut Printer::new(&mut []));
    put_shown(out, table, s, header::head_of(table), p)
}

// Writes the sheet, or the line of the refusal.
fn put_hung(out: &mut Printer, input: &[u8])
    ensures { Put out.old (hung input.now) out.new }
{
    match check_asked(input) {
        Ok(()) => {
            let rehearsal = rehearsal_in(input);
            let mut state = [0u8; SIZE];
            run(
                rehearsal,
                table_in(rehearsal),
                &mut state,
                base::byte_at(input, 0),
                out,
            )
        }
        Err(refusal) => put_refused(out, refusal),
    }
}

// Writes the output of the program `sheet`, as much of it as fits, and answers its length.
pub fn hang(input: &[u8], out: &mut [u8]) -> usize
    ensures value { result ≡ length (hung input.now) }
    ensures upper_bound { result ≤ sheet_most }
    ensures out_after { out.new ≡ over out.old 0 (hung input.now) }
{
    let mut printer = Printer::new(out);
    put_hung(&mut printer, input);
    printer.at
}
