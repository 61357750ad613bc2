// The store that the caller lends: cells by regions. Every cell is read through its limits, so every store is some book's.

// Where the regions start: the lines, their slots of kept patterns, the half-year factors of the years, the lines' totals, and the months of the register.
pub const SLOTS_START: usize = 90;

pub const HINTS_START: usize = 1740;

pub const TOTALS_START: usize = 1853;

pub const MONTHS_START: usize = 1898;

// How many cells a line, a slot and a line's totals have.
pub const LINE_CELLS: usize = 6;

pub const SLOT_CELLS: usize = 11;

pub const TOTAL_CELLS: usize = 3;

// Fifteen lines, ten slots for each, the years from 1987 to 2099, fifteen lines' totals, and the months of the years from 1980 to 2099.
pub const CELLS: usize = 3338;

pub type Store = [u64; CELLS];
