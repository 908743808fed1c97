// The rules by their numbers: what a rule is called by, and the first word of its entries in the computed cache.
pub const SUM: usize = 0;

pub const PRODUCT: usize = 1;

pub const BEST: usize = 2;

// By a number in two halves.
pub const SCALE: usize = 3;

pub const SHIFT: usize = 4;

// By a weight total, an action, a next_step condition.
pub const COMPLEMENT: usize = 5;

pub const NUMBER: usize = 6;

pub const YES_SIDE: usize = 7;

pub const NO_SIDE: usize = 8;

// Down a test's diagram, to the branches.
pub const WALK: usize = 9;

// A choice by the next step's condition, or by the test that a node names.
pub const CHOOSE_LATER: usize = 10;

pub const CHOOSE_NAMED: usize = 11;

pub const SUBSTITUTE: usize = 12;

// A choice by a command, while a model is loaded.
pub const CHOOSE_COMMAND: usize = 13;

// A node's kind, where it is a test.
pub const CONDITION: i64 = 1;

pub const LINEAR: i64 = 2;
