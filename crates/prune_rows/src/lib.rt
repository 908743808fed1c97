// The rows of a lent table; they are numbered from 1.
#![tactic(auto)]

ghost use Rattle.std.specs.Prelude.{◌≡◌};
ghost use Rattle.table_rows.specs.Row.{Inside};
ghost use Rattle.prune_rows.specs.Rows.{branch_at};

// Row r's branch, the high one or the low one.
pub fn branch(nodes: &[i64], r: usize, high: bool) -> usize
    requires { Inside nodes.now r }
    ensures { result ≡ branch_at nodes.now r high }
{
    let x = table::get(nodes, r - 1);
    if high {
        return table_peek::high(x);
    }
    table_peek::low(x)
}
