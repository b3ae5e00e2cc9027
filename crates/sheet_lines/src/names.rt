// The rows of the table of printed lines by their names: a row's number is its place, counted from 0. Those that a run prints
// most come first.

pub const PRINT: u64 = 0;

pub const MOVED: u64 = 1;

pub const ELECTED: u64 = 2;

pub const TABLE_PRINT: u64 = 3;

pub const TABLE_MOVED: u64 = 4;

pub const TABLE_ELECTED: u64 = 5;

pub const PICTURE_STEP: u64 = 6;

pub const PICTURE_POINT: u64 = 7;

pub const PICTURE_ELECTED: u64 = 8;

pub const STOP: u64 = 9;

pub const STOP_HOLDER: u64 = 10;

pub const TABLE_LEFT: u64 = 11;

pub const TABLE_LISTED: u64 = 12;

pub const CHILD_PENDING: u64 = 13;

pub const STORE: u64 = 14;

pub const COLLAR: u64 = 15;

pub const NAMESPACE: u64 = 16;

pub const KILL_ON: u64 = 17;

pub const KILL_OFF: u64 = 18;

pub const LAST: u64 = 19;

pub const ADMITTED: u64 = 20;

pub const ADMITTED_HOLDER: u64 = 21;

pub const TABLE_ADMITTED: u64 = 22;

pub const QUANTITY_KEEPS: u64 = 23;

pub const QUANTITY_LOSES: u64 = 24;

pub const PRICE_KEEPS: u64 = 25;

pub const PRICE_LOSES: u64 = 26;

pub const BOTH_KEEPS: u64 = 27;

pub const BOTH_LOSES: u64 = 28;

pub const REPLACED_KEEPS: u64 = 29;

pub const REPLACED_LOSES: u64 = 30;

pub const TABLE_CHANGED: u64 = 31;

pub const CANCELLED: u64 = 32;

pub const TABLE_CANCELLED: u64 = 33;

pub const CANCELLED_HOLDER: u64 = 34;

pub const CLEARED: u64 = 35;

pub const PRINTS: u64 = 36;

pub const WALK: u64 = 37;

pub const ENDS: u64 = 38;

pub const SUM: u64 = 39;

pub const LEFT: u64 = 40;

pub const TOTALS_LEFT: u64 = 41;

pub const TOTALS: u64 = 42;

pub const TABLE_TOTAL: u64 = 43;

pub const LIST: u64 = 44;

pub const LIST_HOLDER: u64 = 45;

pub const TURNS: u64 = 46;

pub const TURN: u64 = 47;

pub const LADDER: u64 = 48;

pub const LADDER_STOP: u64 = 49;

pub const LADDER_PRICE: u64 = 50;

pub const CHILD_NONE: u64 = 51;

pub const CHILD: u64 = 52;

pub const CHILD_FROM: u64 = 53;

pub const PASS: u64 = 54;

pub const PASS_ELECTED: u64 = 55;

pub const PASS_SUM: u64 = 56;

pub const COMPARE: u64 = 57;

pub const BOTH_ALIKE: u64 = 58;

pub const WALK_ONLY: u64 = 59;

pub const ENDS_ONLY: u64 = 60;

pub const MISSED: u64 = 61;

pub const NEVER_RISES: u64 = 62;

pub const NEVER_FALLS: u64 = 63;

pub const RUN_TURNS: u64 = 64;

pub const STORES_EQUAL: u64 = 65;

pub const STORES_DIFFER: u64 = 66;

pub const STORE_IN_USE: u64 = 67;

pub const SCRIPT_FULL: u64 = 68;

pub const DONE: u64 = 69;

pub const STOPPED: u64 = 70;

pub const TOO_LONG: u64 = 71;

pub const NO_SUCH_ARGUMENT: u64 = 72;

pub const TABLE_HEAD: u64 = 73;

pub const REFUSED: u64 = 74;

pub const FAULTS: u64 = 93;

pub const PICTURE_HEAD: u64 = 104;

pub const PICTURE_STYLE: u64 = 105;

pub const PICTURE_BACK: u64 = 106;

pub const PICTURE_PANEL: u64 = 107;

pub const PICTURE_GRID: u64 = 108;

pub const PICTURE_UNDER: u64 = 109;

pub const PICTURE_LINE: u64 = 110;

pub const PICTURE_LINE_END: u64 = 111;

pub const PICTURE_LABEL: u64 = 112;

pub const PICTURE_LABEL_LONG: u64 = 113;

pub const PICTURE_LEADER: u64 = 114;

pub const PICTURE_PANEL_END: u64 = 115;

pub const PICTURE_END: u64 = 116;

pub const PICTURE_REFUSED: u64 = 117;

pub const PICTURE_FAULT: u64 = 118;

pub const PICTURE_DONE: u64 = 119;

pub const PICTURE_STOPPED: u64 = 120;

pub const ASK: u64 = 121;

pub const ASKED_MOVED: u64 = 122;

pub const ASKED_ELECTED: u64 = 123;

pub const ASKED: u64 = 124;

pub const COMMIT: u64 = 125;

pub const COMMITTED: u64 = 126;

pub const TABLE_ASKED_MOVED: u64 = 127;

pub const TABLE_ASKED_ELECTED: u64 = 128;

pub const TABLE_COMMITTED_MOVED: u64 = 129;

pub const NOT_ASKED: u64 = 130;

pub const REFUSED_20: u64 = 131;

// How many sentences stand behind `REFUSED` and `FAULTS`.
pub const MOST_REFUSALS: u64 = 19;

pub const MOST_FAULTS: u64 = 10;
