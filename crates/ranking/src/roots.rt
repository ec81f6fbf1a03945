// The root of a judged image, written again with new numbers: only its sets change.
ghost use Rattle.things.specs.Rep.{sets_of};
ghost use Rattle.text.specs.Placing.{Placed};
ghost use Rattle.pieces.specs.Pieces.{root_pieces};
ghost use Rattle.ranking.specs.Numbered.{piece_by, pieces_by, RoomFor, RootRoom};

use crate::numbered;
use table::Sets;

fn put_piece(out: &mut [u8], at: usize, tag: u32, of: Sets, content: u32, ranks: &[u32]) -> usize
    requires { RoomFor out.old at ranks.now (piece_by ranks.now (record { tag = tag; sets = sets_of of; content = content })) }
    ensures { Placed out.old at (piece_by ranks.now (record { tag = tag; sets = sets_of of; content = content })) out.new result }
{
    let second = numbers::put_number(out, at, tag);
    let third = numbered::put_sets(out, second, of, ranks);
    numbers::put_number(out, third, content)
}

// It begins at `root` and ends the image.
pub fn put_root(
    out: &mut [u8],
    at: usize,
    image: &[u8],
    root: usize,
    scopes: u32,
    ranks: &[u32],
) -> usize
    requires { RootRoom out.old at ranks.now image.now scopes root }
    ensures { Placed out.old at (pieces_by ranks.now (root_pieces image.now)) out.new result }
{
    let mut here = at;
    let mut from = root;
    while from < image.len() {
        let x = builder::read_front(image, from, scopes);
        from = x.past;
        here = put_piece(out, here, x.tag, x.sets, x.number, ranks);
    }
    here
}
