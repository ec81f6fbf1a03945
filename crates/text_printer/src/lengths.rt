// How long numbers and rung words are.
ghost use Rattle.std.specs.Prelude.{◌≡◌, [], ◌≤◌, length};
ghost use Rattle.model.specs.Jobs.{digits};
ghost use Rattle.requests.specs.ToText.{rung_text};

// Digits of a number.
pub fn decimal_len(n: u32) -> usize
    ensures is { result ≡ length (digits 10 n []) }
    ensures few { result ≤ 10 }
{
    let mut v = n;
    let mut len = 1;
    while 9 < v {
        v /= 10;
        len += 1;
    }
    len
}

pub fn rung_len(n: u32) -> usize
    ensures is { result ≡ length (rung_text n) }
    ensures few { result ≤ 10 }
{
    match n {
        1 => 2,
        0..=5 => 3,
        _ => decimal_len(n),
    }
}
