// The words of the code: what a word is, times 1,024, and a point or a bit's address.
ghost use Rattle.std.specs.Prelude.{◌≡◌, ◌+◌, ◌*◌, ◌≤◌, ◌<◌, length, set};
ghost use Rattle.std.proofs.lemmas.List.Edits.{sets};
ghost use Rattle.wiring.specs.Words.{operands, most_words, most_what, join_number, place_word, others_of, turn_of, ending_of};

use bits::Token;

// How a value is taken: it starts a branch, or it is joined to the one before it in series or in parallel.
#[derive(Clone, Copy)]
pub enum Join {
    Load,
    Series,
    Parallel,
}

// What a word is: contacts of points by their join from 0 on, of bits by their join from BIT on. These stay numbers: code is lent as 16 bits
// a word, of which they are the upper part.
pub const BIT: u16 = 3;

const JOIN: u16 = 5;

const INVERSE: u16 = 8;

pub const COIL: u16 = 9;

pub const BIT_COIL: u16 = 10;

// Points, names, and the words of one kind.
pub const OPERANDS: u32 = 1024;

const VARIABLE: u32 = 0;

const AND: u32 = 0;

const NOT: u32 = 2;

fn word(what: u16, operand: u16) -> u16
    requires { (what ≤ most_what) × (operand < operands) }
    ensures { result ≡ what * operands + operand }
{
    what * 1024 + operand
}

// Of a place in the tree, as `point` says where it is a point, as `bit` says where it is a variable.
pub fn of_place(around: &[u8], point: u16, bit: u16, t: Token) -> u16
    requires { (t.content < operands) × (operands ≤ length around.now) × (point ≤ most_what) × (bit ≤ most_what) }
    ensures { result ≡ place_word around.now point bit t }
{
    if t.tag == VARIABLE {
        word(bit, around[t.content as usize] as u16)
    } else {
        word(point, t.content as u16)
    }
}

// A contact, whose value is taken so.
pub fn contact(around: &[u8], join: Join, t: Token) -> u16
    requires { (t.content < operands) × (operands ≤ length around.now) }
    ensures { result ≡ place_word around.now (join_number join) (join_number join + 3) t }
{
    of_place(around, join as u16, join as u16 + BIT, t)
}

// How the parts behind the first are taken; `not` has none.
pub fn others(rung: u32) -> Join
    ensures { join_number result ≡ others_of rung }
{
    match rung {
        AND => Join::Series,
        _ => Join::Parallel,
    }
}

// Writes a word behind so many others: how many there are now.
pub fn put(code: &mut [u16], count: u32, word: u16) -> u32
    requires { (count < most_words) × (most_words ≤ length code.old) }
    ensures value { result ≡ count + 1 }
    ensures code_after { code.new ≡ set code.old count word }
{
    code[count as usize] = word;
    count + 1
}

// `not` turns the value, and then it is joined.
pub fn finish(code: &mut [u16], count: u32, rung: u32, join: Join) -> u32
    requires { (count + 2 ≤ most_words) × (most_words ≤ length code.old) }
    ensures value { result ≡ count + length (ending_of rung (join_number join)) }
    ensures code_after { code.new ≡ sets code.old count (ending_of rung (join_number join)) }
{
    let turned = turn(code, count, rung);
    match join {
        Join::Load => turned,
        _ => put(code, turned, word(JOIN + join as u16, 0)),
    }
}

fn turn(code: &mut [u16], count: u32, rung: u32) -> u32
    requires { (count < most_words) × (most_words ≤ length code.old) }
    ensures value { result ≡ count + length (turn_of rung) }
    ensures code_after { code.new ≡ sets code.old count (turn_of rung) }
{
    if rung == NOT {
        put(code, count, word(INVERSE, 0))
    } else {
        count
    }
}
