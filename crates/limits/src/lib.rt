// The limits of the rules, in one place.

// plots of a sheet
pub const PLOTS: usize = 240;
// members of a family
pub const MEMBERS: usize = 32;
// columns of one kind
pub const COLUMNS: usize = 6;
// the interaction level k
pub const INTERACTION: usize = 6;
// cells of the level table
pub const LEVELS: usize = 2880;
// bytes of a family buffer
pub const FAMILY: usize = 7680;
// bytes of a name buffer
pub const NAME: usize = 160;
// bytes of a sheet's text
pub const TEXT: usize = 32768;
// bytes of a formula
pub const FORMULA: usize = 256;
// the least count in a formula
pub const LEAST_COUNT: usize = 2;
// the largest count in a formula
pub const MOST_COUNT: usize = 240;

// fields of a line
pub const FIELDS: usize = 12;
// letters or digits of a column's name after its first letter, at most
pub const NAME_TAIL: usize = 11;
// a level of a sheet: only a label
pub type Level = u32;
// the highest level, as a number that is read digit by digit
pub const LEVEL: u64 = 4294967295;

// a code for two labels of a byte each, which is numbered like a level
pub type PairCode = Level;
