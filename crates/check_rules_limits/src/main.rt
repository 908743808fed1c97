// Numbers at the limits ±(2⁶² − 1) and one beyond (11); tables exactly full and one short (12).
// A row is a rule, two lines and a number: 9 the leaf b L1 + c, 0 sum, 1 product, 2 best, 3 scale, 4 shift. A rule
// on a line that came to no node is not run: 255.
#![tactic(auto)]

use std::io;
use table::NODE_WORDS;
use table_unique::WORK_WORDS;

fn case(rt: &impl Print, cap: usize, rows: &[i64]) -> io::Result<()> {
    let mut nodes = [0i64; 16 * NODE_WORDS];
    let mut work = [0u32; 16 * WORK_WORDS];
    let mut results = [0usize; 32];
    check_rule_steps::runs::run(rt, &mut nodes, &mut work, &mut results, cap, rows)?;
    rt.write_all(b"\n")
}

// A leaf at the limits, and beyond them.
fn leaves(rt: &impl Print) -> io::Result<()> {
    let rows = [
        9,
        0,
        0,
        4611686018427387903,
        9,
        0,
        0,
        -4611686018427387903,
        9,
        0,
        0,
        4611686018427387904,
        9,
        0,
        -4611686018427387903,
        0,
        9,
        0,
        -4611686018427387904,
        0,
    ];
    case(rt, 16, &rows)
}

// 2⁶² − 1 is 3 × 1537228672809129301.
fn numbers(rt: &impl Print) -> io::Result<()> {
    let rows = [
        9,
        0,
        0,
        1537228672809129301,
        3,
        0,
        0,
        3,
        3,
        0,
        0,
        -3,
        3,
        0,
        0,
        4,
        4,
        0,
        0,
        3074457345618258602,
        4,
        0,
        0,
        3074457345618258603,
        4,
        0,
        0,
        -4611686018427387903,
        4,
        2,
        0,
        -1,
        3,
        0,
        0,
        0,
    ];
    case(rt, 16, &rows)
}

// Sums and products of leaves.
fn pairs(rt: &impl Print) -> io::Result<()> {
    let rows = [
        9,
        0,
        0,
        4611686018427387902,
        9,
        0,
        0,
        1,
        0,
        0,
        1,
        0,
        0,
        2,
        1,
        0,
        9,
        0,
        0,
        2147483647,
        9,
        0,
        0,
        2147483649,
        1,
        4,
        5,
        0,
        9,
        0,
        0,
        2147483648,
        1,
        7,
        7,
        0,
        9,
        0,
        0,
        -2147483649,
        1,
        9,
        4,
        0,
        1,
        9,
        5,
        0,
    ];
    case(rt, 16, &rows)
}

// The difference that best takes, g − f.
fn differences(rt: &impl Print) -> io::Result<()> {
    let rows = [
        9,
        0,
        0,
        -1,
        9,
        0,
        0,
        4611686018427387902,
        2,
        0,
        1,
        0,
        2,
        1,
        0,
        0,
        9,
        0,
        0,
        4611686018427387903,
        2,
        0,
        4,
        0,
        2,
        4,
        0,
        0,
        9,
        0,
        -4611686018427387902,
        0,
        9,
        0,
        1,
        0,
        2,
        8,
        7,
        0,
        9,
        0,
        2,
        0,
        2,
        10,
        7,
        0,
    ];
    case(rt, 16, &rows)
}

// best (0, L1) is a test over two leaves: three nodes.
fn room(rt: &impl Print, cap: usize) -> io::Result<()> {
    let rows = [
        9, 0, 0, 0, 9, 0, 1, 0, 2, 0, 1, 0, 2, 0, 1, 0, 9, 0, 0, 0, 9, 0, 0, 5, 9, 0, 1, 0,
    ];
    case(rt, cap, &rows)
}

fn main(rt: HostRuntime) -> io::Result<()> {
    leaves(&rt)?;
    numbers(&rt)?;
    pairs(&rt)?;
    differences(&rt)?;
    room(&rt, 1)?;
    room(&rt, 2)?;
    room(&rt, 3)?;
    room(&rt, 4)
}
