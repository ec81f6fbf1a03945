// A walk along the root of a judged image, from token to token of its text.
ghost use Rattle.text_printer.specs.Walking.{Walkable, Steps};

use crate::fronts;

// Where a walk stands: a place of the image, and how many lists are open, the one around the root counted.
#[derive(Clone, Copy)]
pub struct Walk {
    pub at: usize,
    pub depth: usize,
}

// What comes next. An atom is its tag and its content.
#[derive(Clone, Copy)]
pub enum Step {
    Open,
    Close,
    Atom(u32, u32),
}

const LIST: u32 = 5;

// One step of a walk, and where the walk stands after it; `left` has for each open list how many of its parts are to come.
pub fn take_step(image: &[u8], left: &mut [u32], w: Walk) -> Option<(Step, Walk)>
    requires { Walkable image.now left.old w }
    ensures { Steps image.now left.old w left.new result }
{
    let Walk { at, depth } = w;
    let top = depth - 1;
    let more = left[top];
    if more == 0 {
        if top == 0 {
            return None;
        }
        return Some((Step::Close, Walk { at, depth: top }));
    }
    left[top] = more - 1;
    let x = fronts::read_front(image, at);
    if x.tag == LIST {
        left[depth] = x.content;
        let inside = Walk {
            at: x.past,
            depth: depth + 1,
        };
        return Some((Step::Open, inside));
    }
    Some((Step::Atom(x.tag, x.content), Walk { at: x.past, depth }))
}
