// The buffers that a call is lent: filled with one value before it, and looked through after it.
ghost use Rattle.std.specs.Prelude.{◌≡◌, length, replicate};
ghost use Rattle.answer_line.specs.Format.{byte_fill, all_are, is_clear};

pub const WORD: u32 = 0xa5a5a5a5;

pub const BYTE: u8 = 0x5a;

// The word whose four bytes are those.
pub const BYTES: u32 = 0x5a5a5a5a;

pub fn fill_words(words: &mut [u32], w: u32)
    ensures { words.new ≡ replicate (length words.old) w }
{
    words.fill(w);
}

pub fn fill_bytes(bytes: &mut [u8])
    ensures { bytes.new ≡ replicate (length bytes.old) byte_fill }
{
    bytes.fill(BYTE);
}

// Whether every word is w.
pub fn are_words(words: &[u32], w: u32) -> bool
    ensures { result ≡ all_are w words.now }
{
    words.iter().all(|word| *word == w)
}

pub fn are_bytes(bytes: &[u8], b: u8) -> bool
    ensures { result ≡ all_are b bytes.now }
{
    bytes.iter().all(|byte| *byte == b)
}

// Whether the words of a budget are 0 and all others are as they were filled.
pub fn is_clear(words: &[u32], budget: u32) -> bool
    ensures { result ≡ is_clear budget words.now }
{
    let front = table::WORDS_PER_UNIT * budget as usize;
    if words.len() < front {
        return false;
    }
    are_words(&words[..front], 0) && are_words(&words[front..], WORD)
}
