// Words laid out as bytes, low byte first, and taken out of bytes. What puts some gives the place past them.
ghost use Rattle.std.specs.Prelude.{◌≡◌, ◌+◌, ◌*◌, ◌/◌, ◌≤◌, length};
ghost use Rattle.text.specs.Hexadecimal.{hex_of};
ghost use Rattle.text.specs.Placing.{Placed};
ghost use Rattle.answer_line.specs.Words.{bytes_of, bytes_of_words, word_of, words_of};

fn put_word(out: &mut [u8], at: usize, w: u32) -> usize
    requires { at + 4 ≤ length out.old }
    ensures { Placed out.old at (bytes_of w) out.new result }
{
    text::put_text(out, at, &w.to_le_bytes())
}

pub fn put_words(out: &mut [u8], at: usize, words: &[u32]) -> usize
    requires { at + length words.now * 4 ≤ length out.old }
    ensures { Placed out.old at (bytes_of_words words.now) out.new result }
{
    let mut to = at;
    for word in words {
        to = put_word(out, to, *word);
    }
    to
}

fn word(a: u8, b: u8, c: u8, d: u8) -> u32
    ensures { result ≡ word_of a b c d }
{
    u32::from_le_bytes([a, b, c, d])
}

// Bytes that are no whole word are dropped.
pub fn take_words(bytes: &[u8], words: &mut [u32])
    requires { length words.old ≡ length bytes.now / 4 }
    ensures { words.new ≡ words_of bytes.now }
{
    for i in 0..words.len() {
        let at = 4 * i;
        words[i] = word(bytes[at], bytes[at + 1], bytes[at + 2], bytes[at + 3]);
    }
}

fn put_word_hexadecimal(out: &mut [u8], at: usize, w: u32) -> usize
    requires { at + 8 ≤ length out.old }
    ensures { Placed out.old at (hex_of (bytes_of w)) out.new result }
{
    text::put_hexadecimal(out, at, &w.to_le_bytes())
}

pub fn put_words_hexadecimal(out: &mut [u8], at: usize, words: &[u32]) -> usize
    requires { at + length words.now * 8 ≤ length out.old }
    ensures { Placed out.old at (hex_of (bytes_of_words words.now)) out.new result }
{
    let mut to = at;
    for word in words {
        to = put_word_hexadecimal(out, to, *word);
    }
    to
}
