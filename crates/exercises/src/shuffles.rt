// The shuffle of the to-words (change request E3): "for i from the last place down to 1, draw and swap to-words i and draw modulo (i+1)".
ghost use Rattle.std.specs.Prelude.{◌≡◌, ◌-◌, take};
ghost use Rattle.higman.specs.Exercises.{shuffled};
ghost use Rattle.columns.specs.Packed.{words_of};
ghost use Rattle.exercises.specs.Growing.{Shufflable};

use crate::draws;
use operations::MAX_PAIRS;

// The first so many words of a column, shuffled by the draws that follow one. (kept: an array and how many of its places are used, as in
// `columns::splits`.)
pub fn shuffle(column: [u64; MAX_PAIRS], count: usize, draw: u64) -> [u64; MAX_PAIRS]
    requires { Shufflable count draw }
    ensures { words_of (take count result) ≡ shuffled draw (words_of (take count column)) (count - 1) }
{
    let mut words = column;
    let mut last = draw;
    for i in (1..count).rev() {
        last = draws::next(last);
        words.swap(i, (last % (i as u64 + 1)) as usize);
    }
    words
}
