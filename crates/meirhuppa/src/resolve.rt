// The job `resolve`.
ghost use Rattle.std.specs.Prelude.{[]};
ghost use Rattle.model.specs.Jobs.{resolve_job};
ghost use Rattle.meirhuppa.specs.Endings.{Answered};

use crate::answers::Answer;
use crate::{answers, limits};
use jobs::resolving;

// The name of the image's root at a phase.
pub fn meirhuppa_resolve(image: &[u8], phase: u32, budget: u32, table: &mut [u32]) -> Answer
    ensures { Answered (resolve_job image.now phase budget table.old) result [] table.new }
{
    if limits::MOST_BUDGET < budget {
        return answers::small_table();
    }
    let words = budget as usize * limits::WORDS_PER_UNIT;
    if table.len() < words {
        return answers::small_table();
    }
    let ending = resolving::resolve_work(image, phase, budget);
    table::clear(table, budget);
    answers::given_back(ending)
}
