// The job `expand`.
ghost use Rattle.model.specs.Jobs.{expand_job};
ghost use Rattle.meirhuppa.specs.Endings.{Answered};

use crate::answers::Answer;
use crate::{answers, limits};
use jobs::expanding;

// A syntax image without macros, from one with macros, at a phase.
pub fn meirhuppa_expand(
    image: &[u8],
    phase: u32,
    budget: u32,
    table: &mut [u32],
    out: &mut [u8],
) -> Answer
    ensures { Answered (expand_job image.now phase budget table.old out.old) result out.new table.new }
{
    if limits::MOST_BUDGET < budget {
        return answers::small_table();
    }
    let words = budget as usize * limits::WORDS_PER_UNIT;
    if table.len() < words {
        return answers::small_table();
    }
    let ending = expanding::expand_work(out, image, &mut table[..words], phase, budget);
    table::clear(table, budget);
    answers::given_back(ending)
}
