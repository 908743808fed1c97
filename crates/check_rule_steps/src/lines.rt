// Rows of four numbers read as steps, outcomes printed as lines.
use super::Step;
use std::io;
use table::{Made, NODE_WORDS, Stopped};
use whole::limits::mag;

// The number of a step that asks for what is not there.
const UNKNOWN: usize = 255;

// No table has this index.
const NOWHERE: usize = 65535;

// A number as an index.
fn index_of(z: i64) -> usize {
    if z < 0 {
        return NOWHERE;
    }
    let m = mag(z);
    if m > 65535 {
        return NOWHERE;
    }
    m as usize
}

// A word of the rows, 0 past their end.
fn word(rows: &[i64], i: usize) -> i64 {
    if i < rows.len() { rows[i] } else { 0 }
}

// The node that a line came to.
fn result(results: &[usize], line: i64) -> usize {
    let i = index_of(line);
    if i < results.len() {
        results[i]
    } else {
        NOWHERE
    }
}

// The step of the row that begins at word `at`: its rule, two lines and a number.
pub fn step_at(rows: &[i64], results: &[usize], at: usize) -> Step {
    if at > 65535 {
        return Step {
            op: NOWHERE,
            f: NOWHERE,
            g: NOWHERE,
            p: NOWHERE,
            b: 0,
            c: 0,
        };
    }
    let b = word(rows, at + 2);
    let c = word(rows, at + 3);
    Step {
        op: index_of(word(rows, at)),
        f: result(results, word(rows, at + 1)),
        g: result(results, b),
        p: result(results, c),
        b,
        c,
    }
}

// Keeps the node that a line came to.
pub fn save(results: &mut [usize], line: usize, r: Option<Result<Made, Stopped>>) {
    if line < results.len() {
        results[line] = match r {
            Some(Ok(made)) => made.at,
            _ => NOWHERE,
        };
    }
}

fn print_signed(rt: &impl Print, z: i64) -> io::Result<()> {
    if z < 0 {
        rt.write_all(b"-")?;
    }
    rt.print(mag(z))
}

fn print_word(rt: &impl Print, nodes: &[i64], at: usize) -> io::Result<()> {
    rt.write_all(b" ")?;
    print_signed(rt, word(nodes, at))
}

// The words of the node at an index.
fn print_node(rt: &impl Print, nodes: &[i64], at: usize) -> io::Result<()> {
    if at >= NOWHERE {
        return Ok(());
    }
    for i in 0..NODE_WORDS {
        print_word(rt, nodes, at * NODE_WORDS + i)?;
    }
    Ok(())
}

fn print_spaced(rt: &impl Print, x: u64) -> io::Result<()> {
    print!(rt; " {x}")
}

// The node at an index, with its words.
fn print_at(rt: &impl Print, nodes: &[i64], at: usize) -> io::Result<()> {
    print_spaced(rt, at as u64)?;
    rt.write_all(b":")?;
    print_node(rt, nodes, at)
}

// A line: the refusal's number, the count of nodes, and the node that the step came to with its words.
pub fn print(
    rt: &impl Print,
    nodes: &[i64],
    count: usize,
    r: Option<Result<Made, Stopped>>,
) -> io::Result<()> {
    let stop = match r {
        Some(Ok(_)) => 0,
        Some(Err(s)) => s.why.number(),
        None => UNKNOWN,
    };
    rt.print(stop as u64)?;
    print_spaced(rt, count as u64)?;
    if let Some(Ok(made)) = r {
        print_at(rt, nodes, made.at)?;
    }
    rt.write_all(b"\n")
}
