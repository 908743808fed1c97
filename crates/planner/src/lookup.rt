// Export that finds an action by its name.
ghost use Rattle.std.specs.Prelude.{◌≡◌};
ghost use Rattle.model_find.specs.Find.{find as find-of};
ghost use Rattle.c_answers.specs.Answers.{answered};
ghost use Rattle.c_name_answers.specs.FindAnswer.{find_answer};

// Answer, 8 bytes: place, action.
#[unsafe(no_mangle)]
pub extern "C" fn planner_find(bytes: &[u8], name: &[u8], out: &mut [u8]) -> u32
    ensures { answered result out.new ≡ find_answer (find-of bytes.now name.now) out.old }
{
    c_name_answers::lookup::found(out, model_find::find(bytes, name))
}
