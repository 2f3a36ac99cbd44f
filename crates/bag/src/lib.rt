// The bag: its entries read, looked for and added to.
// It uses state for where they stand and what the bytes say, bits to read and to write, and the entries of rules.
#![tactic(auto)]

ghost use Rattle.std.specs.Prelude.{◌≡◌, false, ◌+◌, ◌<◌, ◌≤◌, length};
ghost use Rattle.state.specs.Layout.{entries, entry_size, entry_start};
ghost use Rattle.rules.specs.Bag.{entry_at as nth, same_entry, is_in, is_full};
ghost use Rattle.state.specs.Entries.{entry_of, FieldsFit, EntryFits};
ghost use Rattle.state.specs.Contents.{contents, Canon, Holds, with_entry, enter_on, bag_on};
ghost use Rattle.bag.specs.Bag.{byte_of, signer_found, written_signer, is_written, written, entered};
ghost use Rattle.bag.specs.Bag.{four_of};

use rules::Entry;
use state::layout;

// The kinds of entries, each with its byte.
#[derive(Clone, Copy)]
enum Kind {
    Hash = 1,
    Backing = 2,
    Board = 3,
}

impl Kind {
    // The first byte of an entry of the kind.
    fn byte(self) -> u8
        ensures { result ≡ byte_of self }
    {
        self as u8
    }
}

// The four numbers of an entry, as its bytes have them: a board has no signer, and 0 stands there.
#[derive(Clone, Copy)]
struct Four {
    kind: Kind,
    signer: u8,
    period: u8,
    board: u64,
}

// Those of an entry.
impl From<Entry> for Four {
    fn from(x: Entry) -> Four
        ensures { result ≡ four_of x }
    {
        let (kind, signer, period, board) = match x {
            Entry::Hash(k, p, b) => (Kind::Hash, k, p, b),
            Entry::Backing(k, p, b) => (Kind::Backing, k, p, b),
            Entry::Board(p, b) => (Kind::Board, 0, p, b),
        };
        Four {
            kind,
            signer,
            period,
            board,
        }
    }
}

// How many entries the bag has.
pub fn bag_len(s: &[u8]) -> usize
    requires { Canon s.now }
    ensures { (result ≡ length (contents s.now).bag) × (result ≤ entries) }
{
    bits::word(s, layout::COUNT) as usize
}

// The entry of a kind, a signer, a period and a board.
#[tactic(auto, unfolding(state::specs::Entries::entry_of))]
fn entry_of(kind: u8, signer: u8, period: u8, board: u64) -> Entry
    ensures { result ≡ entry_of kind signer period board }
{
    match kind {
        layout::HASH => Entry::Hash(signer, period, board),
        layout::BACKING => Entry::Backing(signer, period, board),
        _ => Entry::Board(period, board),
    }
}

// Entry e of the bag.
pub fn entry_at(s: &[u8], e: usize) -> Entry
    requires { Canon s.now }
    ensures { result ≡ nth (contents s.now).bag e }
{
    if layout::ENTRIES <= e {
        return Entry::Board(0, 0);
    }
    let o = start_of(e);
    let board = bits::load(s, o + layout::BOARD_IN, layout::ITEM_BYTES);
    entry_of(
        s[o],
        s[o + layout::SIGNER_IN],
        s[o + layout::PERIOD_IN],
        board,
    )
}

// The byte at which entry e begins.
fn start_of(e: usize) -> usize
    requires { e < entries }
    ensures { result ≡ entry_start e }
{
    layout::BAG + layout::ENTRY_SIZE * e
}

// The signer in the bytes from o on if they have this kind, period and board. Periods differ most often.
#[tactic(auto, unfolding(crate::specs::Bag::written_signer))]
fn written_signer(s: &[u8], o: usize, kind: u8, period: u8, board: u64) -> Option<u8>
    requires { o + entry_size ≤ length s.now }
    ensures { result ≡ written_signer s.now o kind period board }
{
    let found = s[o + layout::PERIOD_IN] == period
        && s[o] == kind
        && bits::load(s, o + layout::BOARD_IN, layout::ITEM_BYTES) == board;
    // The signer is read only then: read before, it costs ten instructions an entry.
    if found {
        Some(s[o + layout::SIGNER_IN])
    } else {
        None
    }
}

// The signer of entry e if it has this kind, period and board. The kind is any byte: no entry has one that is none.
pub fn signer_at(s: &[u8], e: usize, kind: u8, period: u8, board: u64) -> Option<u8>
    requires { Canon s.now × (e < length (contents s.now).bag) }
    ensures { result ≡ signer_found kind period board (nth (contents s.now).bag e) }
{
    written_signer(s, start_of(e), kind, period, board)
}

// Whether the bytes from o on are those of an entry with these four. Signers differ most often, then boards.
#[tactic(auto, unfolding(crate::specs::Bag::is_written))]
fn is_written(s: &[u8], o: usize, four: Four) -> bool
    requires { o + entry_size ≤ length s.now }
    ensures { result ≡ is_written s.now o (byte_of four.kind) four.signer four.period four.board }
{
    s[o + layout::SIGNER_IN] == four.signer
        && bits::load(s, o + layout::BOARD_IN, layout::ITEM_BYTES) == four.board
        && s[o + layout::PERIOD_IN] == four.period
        && s[o] == four.kind.byte()
}

// Whether entry e is x.
fn is_entry(s: &[u8], e: usize, x: Entry) -> bool
    requires { Canon s.now × (e < length (contents s.now).bag) }
    ensures { result ≡ same_entry x (nth (contents s.now).bag e) }
{
    is_written(s, start_of(e), Four::from(x))
}

// Whether the bag has x. It stays a function of its own: within the step its loop is laid out so that it takes a third
// more time.
#[inline(never)]
pub fn is_in(s: &[u8], x: Entry) -> bool
    requires { Canon s.now }
    ensures { result ≡ is_in x (contents s.now).bag }
{
    (0..bag_len(s)).any(|e| is_entry(s, e, x))
}

// Writes the bytes of an entry with these four from o on.
fn write(s: &mut [u8], o: usize, four: Four)
    requires { o + entry_size ≤ length s.old }
    ensures { (s.new ≡ written s.old o (byte_of four.kind) four.signer four.period four.board)
        × FieldsFit four.signer four.period four.board }
{
    s[o] = four.kind.byte();
    s[o + layout::SIGNER_IN] = four.signer;
    s[o + layout::PERIOD_IN] = four.period;
    bits::store(s, o + layout::BOARD_IN, layout::ITEM_BYTES, four.board);
}

// Writes the entry x from o on.
pub fn write_entry(s: &mut [u8], o: usize, x: Entry)
    requires { o + entry_size ≤ length s.old }
    ensures { (s.new ≡ entered s.old o x) × EntryFits x }
{
    write(s, o, Four::from(x));
}

// Adds x at the bag's end.
fn append(s: &mut [u8], x: Entry)
    requires { Canon s.old × (length (contents s.old).bag < entries) }
    ensures { Holds s.new (with_entry x (contents s.old)) }
{
    let n = bag_len(s);
    write_entry(s, start_of(n), x);
    bits::store(s, layout::COUNT, layout::COUNT_BYTES, (n + 1) as u64);
}

// Enters x, unless it is there; there is room for it.
pub fn enter(s: &mut [u8], x: Entry)
    requires { Canon s.old × (is_full x (bag_on s.old) ≡ false) }
    ensures { Holds s.new (enter_on x (contents s.old)) }
{
    if !is_in(s, x) {
        append(s, x);
    }
}
