// The commands by their rows in the grammar (sheet_commands).
pub const RECORDS: u64 = 1;

pub const TICK: u64 = 2;

pub const COLLAR: u64 = 3;

pub const NAMESPACE: u64 = 4;

pub const KILL: u64 = 5;

pub const LAST: u64 = 6;

pub const SELL: u64 = 7;

pub const BUY: u64 = 8;

pub const QTY: u64 = 9;

pub const PRICE: u64 = 10;

pub const BOTH: u64 = 11;

pub const REPLACE: u64 = 12;

pub const CANCEL: u64 = 13;

pub const CANCEL_HOLDER: u64 = 14;

pub const CLEAR: u64 = 15;

pub const PRINTS: u64 = 16;

pub const WALK: u64 = 17;

pub const ENDS: u64 = 18;

pub const COMPARE: u64 = 19;

pub const TURNS: u64 = 20;

pub const CHILD: u64 = 21;

pub const PASS: u64 = 22;

pub const LADDER: u64 = 23;

pub const LIST: u64 = 24;

pub const HOLDER: u64 = 25;

pub const TOTALS: u64 = 26;

pub const ASK: u64 = 27;

pub const COMMIT: u64 = 28;
