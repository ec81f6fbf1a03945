// The job: text to an image in lent bytes, or nothing.
ghost use Rattle.std.specs.Prelude.{◌≡◌, false, ◌*◌, length};
ghost use Rattle.std.proofs.Math.Option.{none};
ghost use Rattle.requests.specs.Tokens.{tokens};
ghost use Rattle.requests.specs.FromText.{judged};
ghost use Rattle.text_reader.specs.Found.{most_words};
ghost use Rattle.text_reader.specs.Items.{Sound};
ghost use Rattle.text_reader.specs.Job.{Writes, Reads};

use crate::found::{MOST_WORDS, Words};
use crate::{judging, limits, measuring, writing};
use refusals::Refusal;
use text_endings::{TextRefusal, Written};

// Code 20, or the image of a text within its limits.
fn write_image(words: Words, out: &mut [u8]) -> Written
    requires { Sound words.text.now words.spans.now words.count 0 }
    ensures { Writes words.entry.text.now words.entry.spans.now words.entry.count out.old out.new result }
{
    let room = text_endings::room_in(out.len());
    let len = measuring::image_len(words, room);
    if room < len {
        return Err(TextRefusal::Base(Refusal::TooLong));
    }
    writing::put_image(out, words);
    Ok(len as u32)
}

// Code 2, or what comes after the limits, where 26 and 27 have nothing to refuse.
fn read_judged(text: &[u8], spans: &mut [usize], out: &mut [u8]) -> Written
    requires { (length spans.old ≡ most_words * 2) × (judged 0 false (tokens text.now) ≡ none) }
    ensures { Reads text.now out.old out.new result }
{
    let count = limits::limit(text, spans)?;
    write_image(Words { text, spans, count }, out)
}

// With room for the places of the words.
fn read_with(text: &[u8], spans: &mut [usize], out: &mut [u8]) -> Written
    requires { length spans.old ≡ most_words * 2 }
    ensures { Reads text.now out.old out.new result }
{
    match judging::judge(text) {
        Ok(()) => read_judged(text, spans, out),
        Err(fault) => Err(fault.refusal),
    }
}

// The image of a text.
pub fn read_text(text: &[u8], out: &mut [u8]) -> Written
    ensures { Reads text.now out.old out.new result }
{
    let mut spans = [0usize; MOST_WORDS * 2];
    read_with(text, &mut spans, out)
}
