// The kinds of columns and headers, as the numbers that the code keeps for them (code_of, which the crate verdicts defines).
// No enum: text::judge and the other public calls take any byte as a kind, and the exports hand the number on.
pub const MEASURED: u8 = 0;

pub const LATITUDE: u8 = 1;

pub const LONGITUDE: u8 = 2;

pub const DEPTH: u8 = 3;

pub const FLAG: u8 = 4;

pub const CTD_FLAG: u8 = 5;

pub const EXPOCODE: u8 = 6;

pub const STNNBR: u8 = 7;

pub const CASTNO: u8 = 8;

pub const DATE: u8 = 9;

pub const TIME: u8 = 10;

pub const FREE: u8 = 11;
