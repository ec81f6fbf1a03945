// Points of an image.
ghost use Rattle.std.specs.Prelude.{◌≡◌, ◌+◌, ◌≤◌, length};
ghost use Rattle.model.specs.Limits.{last_point};
ghost use Rattle.model.specs.Refusals.{over_limit};
ghost use Rattle.model.specs.Reading.{num_up_to};
ghost use Rattle.numbers.specs.Limits.{most_image};
ghost use Rattle.numbers.specs.Answers.{read_at, seen};
ghost use Rattle.roots.specs.Points.{number_of};

use numbers::{Cursor, Read};
use refusals::Refusal;
use scopes::Point;

// Its number is judged when it is read.
pub fn read_point(c: Cursor, s: &[u8]) -> Read<Point>
    requires { c.at + length s.now ≤ most_image }
    ensures { seen number_of result ≡ read_at (c.at + length s.now) (num_up_to over_limit last_point s.now) }
{
    let (n, past) = c.number_up_to(s, Refusal::OverLimit, Point::LAST)?;
    Ok((Point(n), past))
}
