// Text in, text out (document 02, T-05), with neither phase nor budget nor table.
ghost use Rattle.requests.specs.TextJobs.{read_job, print_job};
ghost use Rattle.meirhuppa.specs.Texts.{TextAnswered, WrittenAnswer};

use crate::answers::Answer;
use text_endings::Written;
use text_printer::job as printing;
use text_reader::job as reading;

// What was written, or refused, as an answer.
fn given_back(w: Written) -> Answer
    ensures { WrittenAnswer w result }
{
    match w {
        Ok(length) => Answer::written(length, 0),
        Err(f) => Answer::refused(f.code(), 0),
    }
}

// The syntax image of a text, with no scopes, into `out`.
pub fn meirhuppa_read(text: &[u8], out: &mut [u8]) -> Answer
    ensures { TextAnswered (read_job text.now out.old) result out.new }
{
    given_back(reading::read_text(text, out))
}

// The text of a syntax image, into `out`.
pub fn meirhuppa_print(image: &[u8], out: &mut [u8]) -> Answer
    ensures { TextAnswered (print_job image.now out.old) result out.new }
{
    given_back(printing::print_image(image, out))
}
