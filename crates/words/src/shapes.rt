// Shapes (document 01, "Codes": "n ways at every switch, 2 to 9, and r belts, 1 to 9").

// The ways at a switch and the belts of a shape: `shape_in_range` of higman's Limits.antt.
const MIN_ARITY: u8 = 2;

const MAX_ARITY: u8 = 9;

const MIN_ROOTS: u8 = 1;

const MAX_ROOTS: u8 = 9;

// The ways at every switch and the belts. Any two numbers; `is_in_range` tells the shapes that a plan may have.
#[repr(C)]
#[derive(Clone, Copy, PartialEq, Eq, Debug)]
pub struct Shape {
    pub arity: u8,
    pub roots: u8,
}

impl Shape {
    ghost use Rattle.std.specs.Prelude.{◌≡◌};
    ghost use Rattle.higman.specs.Limits.{shape_in_range};
    ghost use Rattle.words.specs.Bytes.{shape_of};

    // Whether it has 2 to 9 ways at a switch and 1 to 9 belts.
    pub fn is_in_range(self) -> bool
        ensures { result ≡ shape_in_range (shape_of self) }
    {
        (MIN_ARITY..=MAX_ARITY).contains(&self.arity)
            && (MIN_ROOTS..=MAX_ROOTS).contains(&self.roots)
    }
}
