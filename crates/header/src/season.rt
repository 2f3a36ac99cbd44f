// The season of a table, which says what form it has: the one place that reads it.
ghost use Rattle.std.specs.Prelude.{◌≡◌};
ghost use Rattle.header.specs.Season.{season_of, fields_at, has_weights};

#[derive(Clone, Copy)]
pub enum Season {
    // The tables of document 01, which cannot start with 0.
    First,
    // Those that start with 0 and 2: their audits name the place that made them.
    Second,
    // Those that start with 0 and 3: so do theirs, and their peers have weights.
    Third,
}

// The season of a table, by its first two bytes.
pub fn season_of(table: &[u8]) -> Season
    ensures { result ≡ season_of table.now }
{
    if base::byte_at(table, 0) != 0 {
        return Season::First;
    }
    match base::byte_at(table, 1) {
        2 => Season::Second,
        3 => Season::Third,
        _ => Season::First,
    }
}

// Where the fields of the header start.
pub(crate) fn fields_at(season: Season) -> u8
    ensures { result ≡ fields_at season }
{
    match season {
        Season::First => 0,
        Season::Second | Season::Third => 2,
    }
}

// Whether the peers of its tables have weights.
pub(crate) fn has_weights(season: Season) -> bool
    ensures { result ≡ has_weights season }
{
    matches!(season, Season::Third)
}
