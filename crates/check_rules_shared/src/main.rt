// Shared diagrams: equal nodes are one node, a rule run again makes nothing, the order of choices does not matter.
// A row is a rule, two lines and a number: 9 the leaf b L1 + c, 0 sum, 2 best, 7 and 8 the sides of condition c + 4,
// 10 the choice by condition c + 4, 11 the choice by the test that line c's node names, 12 a node of condition c.
#![tactic(auto)]

use std::io;
use table::NODE_WORDS;
use table_unique::WORK_WORDS;

fn case(rt: &impl Print, cap: usize, rows: &[i64]) -> io::Result<()> {
    let mut nodes = [0i64; 64 * NODE_WORDS];
    let mut work = [0u32; 64 * WORK_WORDS];
    let mut results = [0usize; 32];
    check_rule_steps::runs::run(rt, &mut nodes, &mut work, &mut results, cap, rows)?;
    rt.write_all(b"\n")
}

// Two leaves, twice; a test of them, twice; best of a diagram with itself, and with its own sum with 0.
fn again(rt: &impl Print) -> io::Result<()> {
    let rows = [
        9, 0, 0, 7, 9, 0, 0, 7, 9, 0, 3, 4, 9, 0, -6, 12, 11, 0, 2, 3, 11, 0, 2, 3, 11, 0, 0, 3, 2,
        4, 4, 0, 9, 0, 0, 0, 0, 4, 8, 0, 0, 8, 4, 0, 2, 4, 9, 0, 0, 4, 4, 0, 0, 4, 4, 0, 3, 4, 0,
        2,
    ];
    case(rt, 64, &rows)
}

// A condition's sides, and those of a condition that is not there.
fn sides(rt: &impl Print) -> io::Result<()> {
    let rows = [
        9, 0, 0, 1, 9, 0, 0, 2, 10, 0, 1, 1, 7, 2, 0, 1, 8, 2, 0, 1, 7, 2, 0, 2, 8, 2, 0, 4, 7, 0,
        0, 1, 10, 2, 0, 3, 7, 8, 0, 3, 8, 8, 0, 1, 8, 8, 0, 3, 7, 8, 0, 1,
    ];
    case(rt, 64, &rows)
}

// 1 where conditions 5 to 8 and a test are all yes, else 2: the choices in order, backwards, and mixed.
fn orders(rt: &impl Print) -> io::Result<()> {
    let rows = [
        9, 0, 0, 1, 9, 0, 0, 2, 9, 0, -1, 10, 11, 0, 1, 2, 10, 3, 1, 4, 10, 4, 1, 3, 10, 5, 1, 2,
        10, 6, 1, 1, 10, 0, 1, 1, 10, 8, 1, 2, 10, 9, 1, 3, 10, 10, 1, 4, 11, 11, 1, 2, 10, 0, 1,
        3, 11, 13, 1, 2, 10, 14, 1, 1, 10, 15, 1, 4, 10, 16, 1, 2,
    ];
    case(rt, 64, &rows)
}

// 1 where conditions 1 to 4 and 8 are all yes, else 2: upwards, downwards, and mixed.
fn now(rt: &impl Print) -> io::Result<()> {
    let rows = [
        9, 0, 0, 1, 9, 0, 0, 2, 12, 0, 1, 1, 12, 0, 1, 2, 12, 0, 1, 3, 12, 0, 1, 4, 10, 0, 1, 4,
        11, 6, 1, 5, 11, 7, 1, 4, 11, 8, 1, 3, 11, 9, 1, 2, 11, 2, 1, 3, 11, 11, 1, 4, 11, 12, 1,
        5, 10, 13, 1, 4, 11, 4, 1, 2, 10, 15, 1, 4, 11, 16, 1, 5, 11, 17, 1, 3,
    ];
    case(rt, 64, &rows)
}

fn main(rt: HostRuntime) -> io::Result<()> {
    again(&rt)?;
    sides(&rt)?;
    orders(&rt)?;
    now(&rt)
}
