// A column made by splits of the belts (change request E3): "draw, take the draw modulo the number of words as a place in digit order
// counted from zero, and put that word's n parts in its stead". The words of a column stand at its first places.
ghost use Rattle.words.specs.Bytes.{shape_of};
ghost use Rattle.exercises.specs.Growing.{Growable, GrownBy};

use crate::draws;
use columns::splits;
use operations::MAX_PAIRS;
use operations::refusals::Refusal;
use words::{MAX_DIGITS, Shape};

// A column whose words are short enough for a plan, and the last draw that went into it.
#[derive(Drop)]
pub struct Grown {
    pub words: [u64; MAX_PAIRS],
    pub last: u64,
}

// The column after so many splits, by the draws that follow one. 4, as soon as a word is too long.
pub fn grow(shape: Shape, splits: u8, draw: u64) -> Result<Grown, Refusal>
    requires { Growable (shape_of shape) draw splits }
    ensures { GrownBy (shape_of shape) draw splits result }
{
    let mut column = splits::root_words(shape.roots);
    let mut count = shape.roots as usize;
    let mut last = draw;
    for _ in 0..splits {
        last = draws::next(last);
        let place = (last % count as u64) as usize;
        if MAX_DIGITS as u32 <= words::length(column[place]) {
            return Err(Refusal::BadWord);
        }
        column = splits::split(column, count, place, shape.arity);
        count += shape.arity as usize - 1;
    }
    Ok(Grown {
        words: column,
        last,
    })
}
