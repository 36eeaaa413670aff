// The columns that a kept plan lends to be read (document 01, "Plans"). The desk lends those that its memory holds, and a plan its own.
ghost use Rattle.std.specs.Prelude.{◌≡◌, true, length};
ghost use Rattle.higman.specs.Answers.{is_kept};
ghost use Rattle.tables.specs.Lines.{plan_of_columns};

use words::Shape;

// A shape and the pairs of a kept plan of it, a from-word and a to-word at each place.
#[derive(Clone, Copy)]
pub struct Lent<'a> {
    pub shape: Shape,
    pub from: &'a [u64],
    pub to: &'a [u64],
    ghost paired: { length from.now ≡ length to.now },
    ghost kept: { is_kept (plan_of_columns shape.arity shape.roots from.now to.now) ≡ true },
}
