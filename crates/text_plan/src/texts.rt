// The text of a plan, line by line: each line is written into the part of the buffer that is left.
ghost use Rattle.std.specs.Prelude.{◌≡◌, ◌+◌, ◌*◌, ◌^◌, ◌≤◌, ◌<◌, length};
ghost use Rattle.theory.specs.Widths.{node_words, steps_most};
ghost use Rattle.theory.specs.Verdict.{from_to};
ghost use Rattle.theory.specs.Listing.{lines, node_line, stage_line, text};
ghost use Rattle.model_progress.specs.GivenFlags.{site_as};
ghost use Rattle.text_decimal.specs.Put.{PutAt};
ghost use Rattle.text_plan_lines.specs.Lines.{line_most};
ghost use Rattle.text_plan.specs.Plan.{PlanReady, other_lines_most, upto};

use model_progress::Site;
use text_plan_lines::{
    first_line, first_line_len, node_line, node_line_len, stage_line, stage_line_len,
};

// The lines of nodes 1 to the last.
fn node_lines(buffer: &mut [u8], at: usize, nodes: &[i64], last: usize) -> usize
    requires { (last * node_words ≤ length nodes.now) × (at + length (lines (node_line nodes.now) (from_to 1 last)) ≤ length buffer.old) }
    ensures { PutAt buffer.old at (lines (node_line nodes.now) (from_to 1 last)) result buffer.new }
{
    let mut next = at;
    for r in 0..last {
        next += node_line(&mut buffer[next..], nodes, r + 1);
    }
    next
}

// Like `node_lines`: a trait of lines that one loop could take would be longer than the two.
fn stage_lines(buffer: &mut [u8], at: usize, stages: &[u32], last: usize) -> usize
    requires { (last ≤ length stages.now) × (at + length (lines (stage_line stages.now) (from_to 1 last)) ≤ length buffer.old) }
    ensures { PutAt buffer.old at (lines (stage_line stages.now) (from_to 1 last)) result buffer.new }
{
    let mut next = at;
    for h in 0..last {
        next += stage_line(&mut buffer[next..], stages, h + 1);
    }
    next
}

// The whole text from a place on; root is the greatest one of the stages.
pub fn write_text(
    buffer: &mut [u8],
    place: usize,
    site: Site,
    horizon: u32,
    nodes: &[i64],
    stages: &[u32],
    root: usize,
) -> usize
    requires { PlanReady horizon nodes.now stages.now root × (place + length (text (site_as site) horizon nodes.now stages.now) ≤ length buffer.old) }
    ensures { PutAt buffer.old place (text (site_as site) horizon nodes.now stages.now) result buffer.new }
{
    let n = place + first_line(&mut buffer[place..], site, horizon);
    let m = node_lines(buffer, n, nodes, root);
    stage_lines(buffer, m, stages, horizon as usize)
}

fn stage_lines_len(stages: &[u32], last: usize) -> usize
    requires { (last ≤ length stages.now) × (last ≤ steps_most) }
    ensures { (result ≡ length (lines (stage_line stages.now) (from_to 1 last))) × (result ≤ steps_most * line_most) }
{
    let mut n = 0;
    for h in 0..last {
        n += stage_line_len(stages, h + 1);
    }
    n
}

// How long the nodes' lines are with what was counted before, or room + 1 where that is more: a long table's sum could wrap.
fn node_lines_len(before: usize, nodes: &[i64], last: usize, room: usize) -> usize
    requires { (before ≤ other_lines_most) × (last * node_words ≤ length nodes.now) × (room < 2 ^ 63) }
    ensures { result ≡ upto room (before + length (lines (node_line nodes.now) (from_to 1 last))) }
{
    let mut n = before;
    for r in 0..last {
        if room < n {
            return room + 1;
        }
        n += node_line_len(nodes, r + 1);
    }
    if room < n { room + 1 } else { n }
}

// How long the whole text is, or room + 1 where it is longer than room.
pub fn text_len(
    site: Site,
    horizon: u32,
    nodes: &[i64],
    stages: &[u32],
    root: usize,
    room: usize,
) -> usize
    requires { PlanReady horizon nodes.now stages.now root × (room < 2 ^ 63) }
    ensures { result ≡ upto room (length (text (site_as site) horizon nodes.now stages.now)) }
{
    let n = first_line_len(site, horizon) + stage_lines_len(stages, horizon as usize);
    node_lines_len(n, nodes, root, room)
}
