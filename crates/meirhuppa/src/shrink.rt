// A smaller image (document 02, T-11), with neither phase nor budget nor table.
ghost use Rattle.shrinking.specs.ShrinkJob.{shrink_job};
ghost use Rattle.meirhuppa.specs.Shrinks.{ShrinkAnswered};

use crate::answers;
use crate::answers::Answer;
use shrinker::job;

// The image without the bindings that no identifier of it uses and the scopes that then are in no set, into `out`.
pub fn meirhuppa_shrink(image: &[u8], out: &mut [u8]) -> Answer
    ensures { ShrinkAnswered (shrink_job image.now out.old) result out.new }
{
    answers::given_back(job::shrink_image(image, out))
}
