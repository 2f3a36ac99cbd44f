// What clashes with an item, as a mask: a number in which bit j is item j. A row of clashes is the mask of one item.
ghost use Rattle.std.specs.Prelude.{◌≡◌, ◌<◌, ◌^◌};
ghost use Rattle.clash.specs.Clash.{clash_in, mask_width, ballot_at, ballots_of, clash_mask, clash_rows, RowsOf};

// The number of items that a mask has a bit for.
fn mask_width(table: &[u8]) -> u8
    ensures { result ≡ mask_width table.now }
{
    header::items(table).min(64)
}

// What bit j of a mask is worth.
fn worth(j: u8) -> u64
    requires { j < 64 }
    ensures { result ≡ 2 ^ j }
{
    1u64 << j
}

// The ballot number of item k.
#[tactic(auto, unfolding(crate::specs::Clash::ballot_at))]
fn ballot_at(table: &[u8], k: u8) -> u32
    ensures { result ≡ ballot_at table.now k }
{
    ballot::item::ballot(ballot::reader::item_at(table, k))
}

// The ballot numbers of items 0 to 63; 0 past the items that there are. The header is read once for all.
fn ballots_of(table: &[u8]) -> [u32; 64]
    ensures { result ≡ ballots_of table.now }
{
    let width = mask_width(table);
    let pairs = ballot::pairs_of(table);
    let mut ballots = [0; 64];
    for k in 0..width {
        ballots[k as usize] = ballot::item::ballot_in(pairs, k);
    }
    ballots
}

// Whether items i and k clash, where item i has this ballot number. No text of another ballot is read.
fn clashes_at(table: &[u8], ballots: &[u32; 64], ballot: u32, i: u8, k: u8) -> bool
    requires { (ballots.now ≡ ballots_of table.now) × (ballot ≡ ballot_at table.now i) × (k < 64) }
    ensures { result ≡ clash_in table.now i k }
{
    ballots[k as usize] == ballot && super::clash_in(table, i, k)
}

// The items that clash with item i, by the ballot numbers of all: bit j is item j.
fn mask_by(table: &[u8], ballots: &[u32; 64], i: u8) -> u64
    requires { ballots.now ≡ ballots_of table.now }
    ensures { result ≡ clash_mask table.now i }
{
    let ballot = ballot_at(table, i);
    let width = mask_width(table);
    let mut mask: u64 = 0;
    for j in 0..width {
        if clashes_at(table, ballots, ballot, i, j) {
            mask += worth(j);
        }
    }
    mask
}

// The items that clash with item i.
pub fn clash_mask(table: &[u8], i: u8) -> u64
    ensures { result ≡ clash_mask table.now i }
{
    let ballots = ballots_of(table);
    mask_by(table, &ballots, i)
}

// The row of every item number below 64: what clashes with it.
pub fn clash_rows(table: &[u8]) -> [u64; 64]
    ensures { result ≡ clash_rows table.now }
{
    let ballots = ballots_of(table);
    let mut rows = [0; 64];
    for i in 0..64u8 {
        rows[i as usize] = mask_by(table, &ballots, i);
    }
    rows
}

// What clashes with item i: its row, where it was made, or the mask made anew.
pub fn clash_row(table: &[u8], rows: &[u64], i: u8) -> u64
    requires { RowsOf table.now rows.now }
    ensures { result ≡ clash_mask table.now i }
{
    let at = i as usize;
    if at < rows.len() {
        return rows[at];
    }
    clash_mask(table, i)
}
