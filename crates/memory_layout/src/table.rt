// Where each field of a desk stands in the words of its memory: specs/Layout's table. Numbers count from 1, so the constant of
// a place is its region's first word less what number 1 adds.
pub const MEMORY_BYTES: usize = 65536;

pub const MEMORY_WORDS: usize = 8192;

pub const KIND: usize = 0;

// The roster, of 76 words: its sizes, then each contract's group, each instrument's contract and weight.
pub const ROSTER: usize = 1;

pub const ACCOUNTS: usize = 1;

pub const GROUPS: usize = 2;

pub const CONTRACTS: usize = 3;

pub const INSTRUMENTS: usize = 4;

pub const GROUPS_OF: usize = 4;

pub const CONTRACTS_OF: usize = 12;

pub const WEIGHTS: usize = 44;

pub const COUNT: usize = 112;

pub const FIRST: usize = 113;

pub const MARKS: usize = 127;

pub const ACCOUNT_BLOCKS: usize = 143;

pub const INSTRUMENT_BLOCKS: usize = 159;

pub const GROUP_BLOCKS: usize = 187;

pub const BALANCES: usize = 223;

pub const OWN_SET: usize = 735;

pub const DEFAULT_SET: usize = 1271;

pub const GROUP_SET: usize = 1403;

pub const OWN_LINES: usize = 1450;

pub const DEFAULT_LINES: usize = 1514;

pub const GROUP_LINES: usize = 1531;

pub const ORDERS: usize = 4224;
