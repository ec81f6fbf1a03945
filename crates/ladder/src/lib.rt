// A panel program as flat code, and the loop that runs it once for each scan. The values of the branches under way, each 0 or 1, are the
// places of one number, the last value lowest.
#![tactic(auto)]

ghost use Rattle.std.specs.Prelude.{◌≡◌, ◌+◌, ◌*◌, ◌/◌, ◌%◌, ◌≤◌, ◌<◌, length, set};
ghost use Rattle.ladder.specs.Places.{most_number, series_in, parallel_in, taken_in, inverse_in, operated_in, Steady, Stepped, Ready, after_code};

// What the words are: three contacts of a point, three of a bit, two joins of branches, and the others. A word stays a number: code is lent as
// 16 bits a word, and `step` tells the kinds apart in one `match`.
const BIT_CONTACTS: u16 = 3;

const JOINS: u16 = 6;

const INVERSE: u16 = 8;

const COIL: u16 = 9;

const BIT_COIL: u16 = 10;

// Points, or addresses, that a word can hold.
const OPERANDS: u16 = 1024;

// Joins.
const LOAD: u16 = 0;

const SERIES: u16 = 1;

fn last(values: u64) -> u8
    ensures { result ≡ values % 2 }
{
    (values % 2) as u8
}

fn series(values: u64, v: u8) -> u64
    ensures { result ≡ series_in values v }
{
    if v == 0 { values - values % 2 } else { values }
}

fn parallel(values: u64, v: u8) -> u64
    ensures { result ≡ parallel_in values v }
{
    if v == 0 {
        values
    } else {
        values - values % 2 + 1
    }
}

fn take(join: u16, values: u64, v: u8) -> u64
    requires { (values < most_number) × (v ≤ 1) }
    ensures { result ≡ taken_in join values v }
{
    match join {
        LOAD => values * 2 + v as u64,
        SERIES => series(values, v),
        _ => parallel(values, v),
    }
}

fn inverse(values: u64) -> u64
    requires { values < most_number }
    ensures { result ≡ inverse_in values }
{
    if values % 2 == 0 {
        values + 1
    } else {
        values - 1
    }
}

// A join of two branches, or an inverse.
fn operate(what: u16, values: u64) -> u64
    requires { (6 ≤ what) × (values < most_number) }
    ensures { result ≡ operated_in what values }
{
    match what {
        INVERSE => inverse(values),
        _ => take(what - JOINS + SERIES, values / 2, last(values)),
    }
}

// A coil: the value is written, and the branch ends.
fn write(place: &mut [u8], operand: usize, values: u64) -> u64
    requires { operand < length place.old }
    ensures written { place.new ≡ set place.old operand (values % 2) }
    ensures ended { result ≡ values / 2 }
{
    place[operand] = last(values);
    values / 2
}

// One word more.
fn step(word: u16, points: &mut [u8], bits: &mut [u8], values: u64) -> u64
    requires { Steady word points.old bits.old values }
    ensures { Stepped word points.old bits.old values points.new bits.new result }
{
    let operand = (word % OPERANDS) as usize;
    match word / OPERANDS {
        what @ ..BIT_CONTACTS => take(what, values, points[operand]),
        what @ ..JOINS => take(what - BIT_CONTACTS, values, bits[operand]),
        what @ ..COIL => operate(what, values),
        COIL => write(points, operand, values),
        BIT_COIL => write(bits, operand, values),
        _ => values,
    }
}

// Runs the code once: what its coils write is in `points` and `bits` then.
pub fn run(code: &[u16], points: &mut [u8], bits: &mut [u8])
    requires { Ready code.now points.old bits.old }
    ensures points { points.new ≡ (after_code code.now points.old bits.old).points }
    ensures bits { bits.new ≡ (after_code code.now points.old bits.old).bits }
{
    let mut values: u64 = 0;
    for &word in code {
        values = step(word, points, bits, values);
    }
}
