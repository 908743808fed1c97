// The stage words: the numbers of the stages' roots, zero beyond.
ghost use Rattle.std.specs.Prelude.{◌≡◌, ◌++◌, ◌-◌, ◌*◌, ◌≤◌, length, drop, replicate};
ghost use Rattle.theory.specs.Widths.{nodes_most};
ghost use Rattle.finish_number.specs.Number.{Roots};
ghost use Rattle.finish.specs.Finish.{numbers_of};

use table_clear::zeros;

// Each root's number, stage by stage.
fn root_numbers(work: &[u32], roots: &[u32], stages: &mut [u32], cap: usize)
    requires { (cap * 2 ≤ length work.now) × (cap ≤ nodes_most) × Roots roots.now cap × (length roots.now ≤ length stages.old) }
    ensures { stages.new ≡ numbers_of work.now cap roots.now ++ drop (length roots.now) stages.old }
{
    for (j, r) in roots.iter().enumerate() {
        stages[j] = work[cap + *r as usize];
    }
}

// All the stage words.
pub fn stage_words(work: &[u32], roots: &[u32], stages: &mut [u32], cap: usize)
    requires { (cap * 2 ≤ length work.now) × (cap ≤ nodes_most) × Roots roots.now cap × (length roots.now ≤ length stages.old) }
    ensures { stages.new ≡ numbers_of work.now cap roots.now ++ replicate (length stages.old - length roots.now) 0 }
{
    root_numbers(work, roots, stages, cap);
    zeros::words_from(stages, roots.len());
}
