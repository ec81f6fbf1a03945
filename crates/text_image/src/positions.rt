// Places in a text as people count them: lines from 1, ended by LF, by CR LF or by CR alone; columns in bytes from 1.
ghost use Rattle.std.specs.Prelude.{◌≡◌, get_or};
ghost use Rattle.text_image.specs.Places.{ends_line, place_from};

#[derive(Clone, Copy)]
pub struct Place {
    pub line: usize,
    pub column: usize,
}

const LF: u8 = 10;

const CR: u8 = 13;

// Whether a line ends with byte b.
fn ends_line(b: u8, next: u8) -> bool
    ensures { result ≡ ends_line b next }
{
    if b == CR { next != LF } else { b == LF }
}

// Byte i, or 0 past the end.
fn byte_at(s: &[u8], i: usize) -> u8
    ensures { result ≡ get_or s.now i 0 }
{
    s.get(i).copied().unwrap_or(0)
}

// The place past these bytes, which are the front of a text.
pub fn past(front: &[u8]) -> Place
    ensures { result ≡ place_from 1 1 front.now }
{
    let mut line = 1;
    let mut column = 1;
    for (i, &b) in front.iter().enumerate() {
        if ends_line(b, byte_at(front, i + 1)) {
            line += 1;
            column = 1;
        } else {
            column += 1;
        }
    }
    Place { line, column }
}
