// The layout of the state: at which byte what stands. docs/STATE.md has it in a table.

// As many as there can be.
pub const PEERS: usize = 16;

pub const PERIODS: usize = 8;

pub const ITEMS: usize = 64;

pub const ENTRIES: usize = 256;

// The bytes of a set of peers, of a set of items, and of the number of entries.
pub const PEER_BYTES: usize = 2;

pub const ITEM_BYTES: usize = 8;

pub const COUNT_BYTES: usize = 2;

// The facts, a bit for each: the byte at which each kind begins.
pub const POSTED: usize = 0;

pub const SIGNED: usize = 8;

pub const SHARED: usize = 1032;

pub const RECEIPTED: usize = 2056;

pub const HELD: usize = 2120;

pub const DATABASE: usize = 3144;

pub const HEARD: usize = 19528;

// The numbers, a byte for each peer: p, c, and whether it is down.
pub const CURRENT: usize = 20040;

pub const TO_BACK: usize = 20056;

pub const DOWN: usize = 20072;

// The bag: the number of entries, and the entries, of eleven bytes each.
pub const COUNT: usize = 20088;

pub const BAG: usize = 20090;

pub const ENTRY_SIZE: usize = 11;

// An entry's first byte is its kind; where its signer, its period and its board stand after that.
pub const HASH: u8 = 1;

pub const BACKING: u8 = 2;

pub const BOARD: u8 = 3;

pub const SIGNER_IN: usize = 1;

pub const PERIOD_IN: usize = 2;

pub const BOARD_IN: usize = 3;

// The length of a state.
pub const SIZE: usize = 22906;
