// How a file falls into images, a byte at a time. Nothing is kept of it but the bytes of one image.
ghost use Rattle.std.specs.Prelude.{◌≡◌, ◌≤◌, length};
ghost use Rattle.model.specs.Reading.{got};
ghost use Rattle.numbers.specs.Limits.{most_image};
ghost use Rattle.numbers.specs.Weights.{Weighed};
ghost use Rattle.reports.specs.Dividing.{Waits, Comes, FirstGroup, NextGroup, Divides, is_between};

use numbers::Cursor;

// Where the reading of a file stands.
#[derive(Clone, Copy)]
pub enum Reading {
    // Between two images. The file may end here.
    Between,
    // Inside a length: how many groups may come before the fifth, the next one's weight, and what they add to so far.
    Length(u32, u32, u32),
    // Inside an image: how many of its bytes are in the room, and how many are still to come.
    Image(usize, usize),
    // Inside an image over 65,536 bytes: how many of its bytes are still to come.
    Passing(u32),
    // A length was malformed.
    Cut,
}

impl Reading {
    // An image of so many bytes comes next.
    fn image(length: u32) -> Reading
        ensures { Comes (got length) result }
    {
        if Cursor::MOST_IMAGE < length as usize {
            return Reading::Passing(length);
        }
        Reading::Image(0, length as usize)
    }

    // Behind the first group of a length.
    fn first_group(b: u8) -> Reading
        ensures { FirstGroup b result }
    {
        if b < 128 {
            return Reading::image(b as u32);
        }
        Reading::Length(3, 128, (b - 128) as u32)
    }

    // Behind one of the others; only the shortest form is taken.
    fn next_group(left: u32, weight: u32, sum: u32, b: u8) -> Reading
        requires { Weighed left weight sum }
        ensures { NextGroup left weight sum b result }
    {
        if b == 0 {
            return Reading::Cut;
        }
        if left == 0 && 15 < b {
            return Reading::Cut;
        }
        if left == 0 || b < 128 {
            return Reading::image(sum + b as u32 * weight);
        }
        Reading::Length(left - 1, weight * 128, sum + (b - 128) as u32 * weight)
    }

    // Takes a byte of the file; one of an image goes into the room.
    pub fn take(self, b: u8, room: &mut [u8]) -> Reading
        requires { Waits self × (most_image ≤ length room.old) }
        ensures { Divides self b room.old result room.new }
    {
        match self {
            Reading::Between => Reading::first_group(b),
            Reading::Length(left, weight, sum) => Reading::next_group(left, weight, sum, b),
            Reading::Image(have, left) => {
                room[have] = b;
                Reading::Image(have + 1, left - 1)
            }
            Reading::Passing(left) => Reading::Passing(left - 1),
            Reading::Cut => Reading::Cut,
        }
    }

    // Whether the file may end here.
    pub fn between(self) -> bool
        ensures { result ≡ is_between self }
    {
        matches!(self, Reading::Between)
    }
}
