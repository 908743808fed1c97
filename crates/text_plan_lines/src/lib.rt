// Each line of a listing, written at the front of a lent part of the buffer, and how long it is.
#![tactic(auto)]

ghost use Rattle.std.specs.Prelude.{◌≡◌, [], ◌∷◌, ◌+◌, ◌-◌, ◌≤◌, length, get_or};
ghost use Rattle.theory.specs.Verdict.{refusal};
ghost use Rattle.theory.specs.Value.{node_word, high_of, low_of};
ghost use Rattle.theory.specs.Listing.{first_line, node_line, stage_line, refusal_line};
ghost use Rattle.model_progress.specs.GivenFlags.{site_as};
ghost use Rattle.table_rows.specs.Row.{Inside};
ghost use Rattle.text_decimal.specs.Put.{PutAt};
ghost use Rattle.text_plan_lines.specs.Lines.{node_rest, line_most, node_line_most};

use model_progress::Site;
use table::{HIGH, LOW, NODE_WORDS};
use table_rows::words::{magnitude, word};
use text_decimal::lines::{line_len, put_line};
use text_decimal::{Decimal, put_bytes};

fn first_numbers(site: Site, horizon: u32) -> [u64; 5]
    ensures { result ≡ site.levels ∷ site.conditions ∷ site.actions ∷ site.weights ∷ horizon ∷ [] }
{
    [
        u64::from(site.levels),
        u64::from(site.conditions),
        u64::from(site.actions),
        u64::from(site.weights),
        u64::from(horizon),
    ]
}

pub fn first_line(out: &mut [u8], site: Site, horizon: u32) -> usize
    requires { length (first_line (site_as site) horizon) ≤ length out.old }
    ensures { PutAt out.old 0 (first_line (site_as site) horizon) result out.new }
{
    let xs = first_numbers(site, horizon);
    put_line(out, 0, b"PLAN", &xs)
}

pub fn first_line_len(site: Site, horizon: u32) -> usize
    ensures { (result ≡ length (first_line (site_as site) horizon)) × (result ≤ line_most) }
{
    let xs = first_numbers(site, horizon);
    line_len(b"PLAN", &xs)
}

// A condition's number, and its branches.
fn condition_numbers(nodes: &[i64], r: usize) -> [i64; 3]
    requires { Inside nodes.now r }
    ensures { result ≡ node_word nodes.now r 1 ∷ high_of nodes.now r ∷ low_of nodes.now r ∷ [] }
{
    [word(nodes, r, 1), word(nodes, r, HIGH), word(nodes, r, LOW)]
}

// Behind a node's number: the letter of its kind, and the numbers that the kind has. A leaf "none" has none.
fn node_rest(out: &mut [u8], at: usize, nodes: &[i64], r: usize) -> usize
    requires { Inside nodes.now r × (at + length (node_rest nodes.now r) ≤ length out.old) }
    ensures { PutAt out.old at (node_rest nodes.now r) result out.new }
{
    let first = (r - 1) * NODE_WORDS + 1;
    match magnitude(nodes, r, 0) {
        0 => put_line(out, at, b" V", &nodes[first..first + HIGH]),
        1 => put_line(out, at, b" B", &condition_numbers(nodes, r)),
        3 => put_bytes(out, at, b" X\n"),
        _ => put_line(out, at, b" L", &nodes[first..first + LOW]),
    }
}

fn node_rest_len(nodes: &[i64], r: usize) -> usize
    requires { Inside nodes.now r }
    ensures { (result ≡ length (node_rest nodes.now r)) × (result ≤ line_most) }
{
    let first = (r - 1) * NODE_WORDS + 1;
    match magnitude(nodes, r, 0) {
        0 => line_len(b" V", &nodes[first..first + HIGH]),
        1 => line_len(b" B", &condition_numbers(nodes, r)),
        3 => 3,
        _ => line_len(b" L", &nodes[first..first + LOW]),
    }
}

pub fn node_line(out: &mut [u8], nodes: &[i64], r: usize) -> usize
    requires { Inside nodes.now r × (length (node_line nodes.now r) ≤ length out.old) }
    ensures { PutAt out.old 0 (node_line nodes.now r) result out.new }
{
    let n = put_bytes(out, 0, b"N");
    let m = (r as u64).put_spaced(out, n);
    node_rest(out, m, nodes, r)
}

pub fn node_line_len(nodes: &[i64], r: usize) -> usize
    requires { Inside nodes.now r }
    ensures { (result ≡ length (node_line nodes.now r)) × (result ≤ node_line_most) }
{
    1 + (r as u64).spaced_len() + node_rest_len(nodes, r)
}

fn stage_numbers(stages: &[u32], h: usize) -> [u64; 2]
    requires { (1 ≤ h) × (h ≤ length stages.now) }
    ensures { result ≡ h ∷ get_or stages.now (h - 1) 0 ∷ [] }
{
    [h as u64, u64::from(stages[h - 1])]
}

pub fn stage_line(out: &mut [u8], stages: &[u32], h: usize) -> usize
    requires { (1 ≤ h) × (h ≤ length stages.now) × (length (stage_line stages.now h) ≤ length out.old) }
    ensures { PutAt out.old 0 (stage_line stages.now h) result out.new }
{
    let xs = stage_numbers(stages, h);
    put_line(out, 0, b"S", &xs)
}

pub fn stage_line_len(stages: &[u32], h: usize) -> usize
    requires { (1 ≤ h) × (h ≤ length stages.now) }
    ensures { (result ≡ length (stage_line stages.now h)) × (result ≤ line_most) }
{
    let xs = stage_numbers(stages, h);
    line_len(b"S", &xs)
}

pub fn refusal_line(out: &mut [u8], number: u32, place: usize) -> usize
    requires { length (refusal_line (refusal number place)) ≤ length out.old }
    ensures { PutAt out.old 0 (refusal_line (refusal number place)) result out.new }
{
    let xs = [u64::from(number), place as u64];
    put_line(out, 0, b"R", &xs)
}
