// The front of an object in a judged image: its tag and its content, or the count of its parts, between which its sets are passed over.
ghost use Rattle.std.specs.Prelude.{◌≡◌, ◌≤◌, length, drop};
ghost use Rattle.model.specs.Reading.{num};
ghost use Rattle.text_printer.specs.Fronts.{value_of, after_number, after_numbers, after_set, Inside, After, FrontIs};

use numbers::Cursor;

// What an object has before its parts, and the place past that.
#[derive(Clone, Copy)]
pub struct Front {
    pub tag: u32,
    pub content: u32,
    pub past: usize,
}

// The number at a place, where there is one.
fn value_at(image: &[u8], at: usize) -> u32
    requires { Inside image.now at }
    ensures { result ≡ value_of (num (drop at image.now)) }
{
    let c = Cursor { at };
    match c.number(&image[at..]) {
        Ok((n, _)) => n,
        Err(_) => 0,
    }
}

// The place past a number.
fn skip_number(image: &[u8], at: usize) -> usize
    requires { at ≤ length image.now }
    ensures { After image.now result (after_number (drop at image.now)) }
{
    for i in at..image.len() {
        if image[i] < 128 {
            return i + 1;
        }
    }
    image.len()
}

// The place past so many numbers.
fn skip_numbers(image: &[u8], at: usize, count: u32) -> usize
    requires { at ≤ length image.now }
    ensures { After image.now result (after_numbers count (drop at image.now)) }
{
    let mut here = at;
    for _ in 0..count {
        here = skip_number(image, here);
    }
    here
}

// The place past a set.
fn skip_set(image: &[u8], at: usize) -> usize
    requires { Inside image.now at }
    ensures { After image.now result (after_set (drop at image.now)) }
{
    let members = value_at(image, at);
    let first = skip_number(image, at);
    skip_numbers(image, first, members)
}

pub fn read_front(image: &[u8], at: usize) -> Front
    requires { Inside image.now at }
    ensures { FrontIs image.now at result }
{
    let tag = value_at(image, at);
    let at0 = skip_number(image, at);
    let at1 = skip_set(image, at0);
    let at2 = skip_set(image, at1);
    let behind = skip_set(image, at2);
    let content = value_at(image, behind);
    let past = skip_number(image, behind);
    Front { tag, content, past }
}
