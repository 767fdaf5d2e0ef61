// The refusal numbers of document 01, each under a name for the words of its table, and 29 of document 02; 0 is no refusal.
// No enum: they are the documents' numbers, which the C interface hands out and `breaks` of format's specs names.
pub const LINE_TOO_LONG: u64 = 1;

pub const NO_LINE_FEED: u64 = 2;

pub const ILL_FORMED_UTF8: u64 = 3;

pub const CARRIAGE_RETURN: u64 = 4;

pub const CONTROL_BYTE: u64 = 5;

pub const BYTE_ORDER_MARK: u64 = 6;

pub const BAD_FIRST_LINE: u64 = 7;

pub const BAD_HEADER: u64 = 8;

pub const NAME_REPEATED: u64 = 9;

pub const BAD_COLUMN_NAME: u64 = 10;

pub const TOO_MANY_NAMES: u64 = 11;

pub const FLAG_WITHOUT_PARAMETER: u64 = 12;

pub const REQUIRED_NAME_ABSENT: u64 = 13;

pub const LINE_DUE: u64 = 14;

pub const WRONG_NUMBER_OF_CELLS: u64 = 15;

pub const NOT_OF_ITS_KIND: u64 = 16;

pub const BLANK: u64 = 17;

pub const OUT_OF_RANGE: u64 = 18;

pub const NO_DATA_LINE: u64 = 19;

pub const TOO_MANY_DATA_LINES: u64 = 20;

pub const NO_SUCH_PLACE: u64 = 21;

pub const COLUMN_OF_OTHER_KIND: u64 = 22;

pub const VALUE_NOT_WRITABLE: u64 = 23;

pub const FLAG_NOT_IN_SET: u64 = 24;

pub const TEXT_TOO_LONG: u64 = 25;

pub const MALFORMED_LIST_LINE: u64 = 26;

pub const TABLE_TOO_SHORT: u64 = 29;
