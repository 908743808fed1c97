// "What a refusal gives": numbers 1 to 10.

// First is not site, or a later one is.
pub const ORDER: u32 = 1;

// Bytes end before a command is whole.
pub const SHORT: u32 = 2;

// Unknown byte.
pub const UNKNOWN: u32 = 3;

// Operand or diagram against the rules.
pub const OPERAND: u32 = 4;

// Stack short, or a 33rd entry.
pub const STACK: u32 = 5;

// Given twice.
pub const TWICE: u32 = 6;

// At end, something missing or stack not empty.
pub const MISSING: u32 = 7;

// Bytes after end.
pub const EXTRA: u32 = 8;

// Horizon or steps not 1 to 8.
pub const STEPS: u32 = 9;

// Stage words not eight, or a model too long.
pub const SIZES: u32 = 10;
