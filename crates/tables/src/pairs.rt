// The pairs of a table, read from two columns of packed words (document 01, "Plans").
ghost use Rattle.std.specs.Prelude.{◌≡◌, length};

// The from-words and the to-words, as many of these as of those. (kept: the seven functions that other crates call take two columns. Tried
// with this type: `is_normal`, `spread_plans`, `route_into`, `list_into` and `block_lines` proved; `reduce` and `listing_length` did not,
// since the check knows that words fit 64 bits of a slice that is a parameter, and not of one in a struct. With five of seven changed,
// operations would hand in both forms, in `composed` side by side, and plans and asking would have to follow; so all seven stay alike.)
#[derive(Clone, Copy)]
pub struct Pairs<'a> {
    pub from: &'a [u64],
    pub to: &'a [u64],
    ghost paired: { length from.now ≡ length to.now },
}
