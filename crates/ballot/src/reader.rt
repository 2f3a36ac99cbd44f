// A reader that stands over the table's bytes and hands out item k. `over` makes the struct and `hand_out` takes it;
// `item_at`, with plain parameters, serves whoever reads an item: the table's own judgement, and the clash test.
ghost use Rattle.std.specs.Prelude.{◌≡◌};
ghost use Rattle.ballot.specs.Table.{item_below, item_text};
ghost use Rattle.ballot.specs.Reader.{reader_over};

use pairs::Pairs;

// A table and the number of its items.
#[derive(Drop)]
pub struct Reader<'a> {
    pub table: &'a [u8],
    pub items: u8,
}

// The text of item k of the first `items`; none past them.
fn item_below(table: &[u8], items: u8, k: u8) -> &[u8]
    ensures { result.now ≡ item_below table.now items k }
{
    if k < items {
        let pairs = Pairs {
            bytes: table,
            at: header::header_size(table),
            count: items,
        };
        return pairs.text(k);
    }
    &table[..0]
}

// The reader over a table.
pub fn over<'a>(table: &'a [u8]) -> Reader<'a>
    ensures { result ≡ reader_over table.entry }
{
    let items = header::items(table);
    Reader { table, items }
}

// The text of item k, as the part of the table that it is.
pub fn hand_out<'a>(r: Reader<'a>, k: u8) -> &'a [u8]
    ensures { result.now ≡ item_below r.entry.table.now r.entry.items k }
{
    item_below(r.table, r.items, k)
}

// The text of item k of a table; none where the table has no such item.
pub fn item_at(table: &[u8], k: u8) -> &[u8]
    ensures { result.now ≡ item_text table.now k }
{
    hand_out(over(table), k)
}
