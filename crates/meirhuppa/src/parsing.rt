// The job `parse`.
ghost use Rattle.model.specs.Jobs.{parse_job};
ghost use Rattle.meirhuppa.specs.Endings.{Answered};

use crate::answers::Answer;
use crate::{answers, limits};
use jobs::parsing;

// The tree image of an expanded syntax image.
pub fn meirhuppa_parse(image: &[u8], budget: u32, table: &mut [u32], out: &mut [u8]) -> Answer
    ensures { Answered (parse_job image.now budget table.old out.old) result out.new table.new }
{
    if limits::MOST_BUDGET < budget {
        return answers::small_table();
    }
    let words = budget as usize * limits::WORDS_PER_UNIT;
    if table.len() < words {
        return answers::small_table();
    }
    let ending = parsing::parse_work(out, image, &mut table[..words], budget);
    table::clear(table, budget);
    answers::given_back(ending)
}
