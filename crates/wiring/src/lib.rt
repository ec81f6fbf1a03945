// A panel program wired once into flat code (document 02, T-02): the words that `ladder` runs at each scan, and the start values of the
// bits. The image has been judged and its root is a program; what is none ends in some fault, and nothing is said of it.
#![tactic(auto)]

pub mod words;

ghost use Rattle.std.specs.Prelude.{◌≡◌, ◌+◌, ◌-◌, ◌≤◌, ◌<◌, [], length, set};
ghost use Rattle.numbers.specs.Limits.{most_image};
ghost use Rattle.numbers.specs.Answers.{read_at};
ghost use Rattle.bits.specs.Meeting.{room};
ghost use Rattle.wiring.specs.Words.{operands, most_words, join_number};
ghost use Rattle.wiring.specs.Wiring.{Wrote, Wires, WiresRung, Fits, Tells, inside, nothing, start_number, wire_tree, wire_application, wire_parts, wire_rung, wire_bit, wire_programs, wire_head, wire_program};

use bits::Gathered;
use numbers::{Cursor, Read};
use refusals::Refusal;
use std::mem;
use words::Join;

// So many words, and so many bits met.
#[derive(Clone, Copy)]
pub struct Wired {
    pub words: u32,
    pub bits: u32,
}

impl Wired {
    // Words of code: one for two bytes of an image at most.
    pub const ROOM: usize = 32768;

    // Tags, numbers as a token has them.
    const APPLICATION: u32 = 1;

    const FUNCTION: u32 = 2;

    // A rung word.
    const ALL: u32 = 5;
}

// The expression at a cursor, where `s` is the image from there on, `levels` levels are left, and `count` words are written; its value is
// taken as `join` says. `around` has the addresses of the bits around by their names. It and the code are no one struct: expressions only read
// the one and write the other, and programs lend both again for each expression.
#[cycle(wiring_expressions)]
fn wire_tree(
    c: Cursor,
    s: &[u8],
    around: &[u8],
    code: &mut [u16],
    levels: u32,
    count: u32,
    join: Join,
) -> Read<u32>
    requires { Fits c.at s.now around.now code.old count }
    ensures { Wrote count (c.at + length s.now) (wire_tree around.now levels (join_number join) s.now) code.old code.new result }
{
    if levels == 0 {
        return Err(Refusal::Layout);
    }
    let (t, past) = bits::read_token(c, s)?;
    if t.tag == Wired::APPLICATION {
        let rest = c.after(s, past);
        return wire_application(past, rest, around, code, levels - 1, count, join, t.content);
    }
    if words::OPERANDS <= t.content {
        return Err(Refusal::Layout);
    }
    let word = words::contact(around, join, t);
    Ok((words::put(code, count, word), past))
}

// A head and its parts, `parts` in all.
#[cycle(wiring_expressions)]
fn wire_application(
    c: Cursor,
    s: &[u8],
    around: &[u8],
    code: &mut [u16],
    levels: u32,
    count: u32,
    join: Join,
    parts: u32,
) -> Read<u32>
    requires { Fits c.at s.now around.now code.old (count + 1) }
    ensures { Wrote count (c.at + length s.now) (wire_application (wire_tree around.now levels) (join_number join) parts s.now) code.old code.new result }
{
    let (head, past) = bits::read_token(c, s)?;
    let rest = c.after(s, past);
    let others = words::others(head.content);
    let (words, end) = wire_parts(past, rest, around, code, levels, count, others, parts)?;
    Ok((words::finish(code, words, head.content, join), end))
}

// The parts behind the head: the first starts a branch, the others are joined to it.
#[cycle(wiring_expressions)]
fn wire_parts(
    c: Cursor,
    s: &[u8],
    around: &[u8],
    code: &mut [u16],
    levels: u32,
    count: u32,
    others: Join,
    parts: u32,
) -> Read<u32>
    requires { Fits c.at s.now around.now code.old count }
    ensures { Wrote count (c.at + length s.now) (wire_parts (wire_tree around.now levels) 0 (join_number others) [] (parts - 1) s.now) code.old code.new result }
{
    let mut here = c;
    let mut words = count;
    let mut join = Join::Load;
    for _ in 1..parts {
        let rest = c.after(s, here);
        (words, here) = wire_tree(here, rest, around, code, levels, words, join)?;
        join = others;
    }
    Ok((words, here))
}

// The place driven, and the expression: the coil comes behind the words of the expression.
fn wire_rung(
    c: Cursor,
    s: &[u8],
    around: &[u8],
    code: &mut [u16],
    levels: u32,
    at: Wired,
) -> Read<Wired>
    requires { Fits c.at s.now around.now code.old at.words }
    ensures { WiresRung at (c.at + length s.now) (wire_rung around.now levels s.now) code.old code.new result }
{
    let (t, past) = bits::read_token(c, s)?;
    let rest = c.after(s, past);
    let (count, end) = wire_tree(past, rest, around, code, levels, at.words, Join::Load)?;
    if words::OPERANDS <= t.content {
        return Err(Refusal::Layout);
    }
    let word = words::of_place(around, words::COIL, words::BIT_COIL, t);
    let words = words::put(code, count, word);
    Ok((Wired { words, ..at }, end))
}

// The program at a cursor, where `at` is what is wired before it. `around` is as before afterwards.
#[cycle(wiring_programs)]
fn wire_program(
    c: Cursor,
    s: &[u8],
    around: &mut [u8],
    code: &mut [u16],
    bits: &mut [u8],
    levels: u32,
    at: Wired,
) -> Read<Wired>
    requires { Fits c.at s.now around.old code.old at.words × (room ≤ length bits.old) }
    ensures wires { Wires at (c.at + length s.now) (wire_program levels around.old at.bits s.now) code.old bits.old code.new bits.new result }
    ensures around_unchanged { around.new ≡ around.old }
{
    if levels == 0 {
        return Err(Refusal::Layout);
    }
    let (t, past) = bits::read_token(c, s)?;
    let rest = c.after(s, past);
    wire_head(past, rest, around, code, bits, levels - 1, at, t.content)
}

// By the head of its `parts` parts: a bit, several programs, or a rung.
#[cycle(wiring_programs)]
fn wire_head(
    c: Cursor,
    s: &[u8],
    around: &mut [u8],
    code: &mut [u16],
    bits: &mut [u8],
    levels: u32,
    at: Wired,
    parts: u32,
) -> Read<Wired>
    requires { Fits c.at s.now around.old code.old at.words × (room ≤ length bits.old) }
    ensures wires { Wires at (c.at + length s.now) (wire_head (wire_program levels) (wire_rung around.old levels) around.old at.bits parts s.now) code.old bits.old code.new bits.new result }
    ensures around_unchanged { around.new ≡ around.old }
{
    let (head, past) = bits::read_token(c, s)?;
    let rest = c.after(s, past);
    match (head.tag, head.content) {
        (Wired::FUNCTION, name) => wire_bit(past, rest, around, code, bits, levels, at, name),
        (_, Wired::ALL) => wire_programs(past, rest, around, code, bits, levels, at, parts),
        _ => wire_rung(past, rest, around, code, levels, at),
    }
}

// A function's name stands for the next address in its body; behind it comes the start value.
#[cycle(wiring_programs)]
fn wire_bit(
    c: Cursor,
    s: &[u8],
    around: &mut [u8],
    code: &mut [u16],
    bits: &mut [u8],
    levels: u32,
    at: Wired,
    name: u32,
) -> Read<Wired>
    requires { Fits c.at s.now around.old code.old at.words × (room ≤ length bits.old) }
    ensures wires { Wires at (c.at + length s.now) (wire_bit (wire_program levels) around.old at.bits name s.now) code.old bits.old code.new bits.new result }
    ensures around_unchanged { around.new ≡ around.old }
{
    if words::OPERANDS <= name || Gathered::ROOM <= at.bits {
        return Err(Refusal::Layout);
    }
    let (wired, past) = wire_inside(c, s, around, code, bits, levels, at, name)?;
    let (start, end) = read_start(past, c.after(s, past))?;
    bits[at.bits as usize] = start;
    Ok((wired, end))
}

// A function's body, where its name stands for the next address.
#[cycle(wiring_programs)]
fn wire_inside(
    c: Cursor,
    s: &[u8],
    around: &mut [u8],
    code: &mut [u16],
    bits: &mut [u8],
    levels: u32,
    at: Wired,
    name: u32,
) -> Read<Wired>
    requires { Fits c.at s.now around.old code.old at.words × (room ≤ length bits.old) × (name < operands) × (at.bits < room) }
    ensures wires { Wires (inside at) (c.at + length s.now) (wire_program levels (set around.old name at.bits) (at.bits + 1) s.now) code.old bits.old code.new bits.new result }
    ensures around_unchanged { around.new ≡ around.old }
{
    let before = mem::replace(&mut around[name as usize], at.bits as u8);
    let next = Wired {
        bits: at.bits + 1,
        ..at
    };
    let body = wire_program(c, s, around, code, bits, levels, next);
    around[name as usize] = before;
    body
}

// The start value behind a function's body.
fn read_start(c: Cursor, s: &[u8]) -> Read<u8>
    requires { c.at + length s.now ≤ most_image }
    ensures { result ≡ read_at (c.at + length s.now) (start_number s.now) }
{
    let (t, past) = bits::read_token(c, s)?;
    if 1 < t.content {
        return Err(Refusal::Layout);
    }
    Ok((t.content as u8, past))
}

// The programs behind the word `all`.
#[cycle(wiring_programs)]
fn wire_programs(
    c: Cursor,
    s: &[u8],
    around: &mut [u8],
    code: &mut [u16],
    bits: &mut [u8],
    levels: u32,
    at: Wired,
    parts: u32,
) -> Read<Wired>
    requires { Fits c.at s.now around.old code.old at.words × (room ≤ length bits.old) }
    ensures wires { Wires at (c.at + length s.now) (wire_programs (wire_program levels around.old) at.bits nothing (parts - 1) s.now) code.old bits.old code.new bits.new result }
    ensures around_unchanged { around.new ≡ around.old }
{
    let mut here = c;
    let mut wired = at;
    for _ in 1..parts {
        let rest = c.after(s, here);
        (wired, here) = wire_program(here, rest, around, code, bits, levels, wired)?;
    }
    Ok((wired, here))
}

// The root of a judged tree image that is a program, where `s` is the image from there on: its code, and the start values of its bits.
pub fn wire(c: Cursor, s: &[u8], code: &mut [u16], bits: &mut [u8]) -> Wired
    requires { (c.at + length s.now ≤ most_image) × (most_words ≤ length code.old) × (room ≤ length bits.old) }
    ensures { Tells s.now code.new bits.new result }
{
    let mut around = [0u8; words::OPERANDS as usize];
    let none = Wired { words: 0, bits: 0 };
    match wire_program(c, s, &mut around, code, bits, Cursor::MOST_NESTING, none) {
        Ok((wired, _)) => wired,
        Err(_) => none,
    }
}
