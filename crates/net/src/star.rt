// The net and its invariant.
ghost use Rattle.std.specs.Prelude.{◌≡◌, ◌-◌, ◌≤◌, length, slice_index};
ghost use Rattle.net.specs.Table.{Rising, Within};

// A net: a view of the caller's lists of starts and heads.
// It has no `Model`, which would hide the two lists: `fill` promises that the view is of these very ones.
// Station s is the tail of the links starts[s] up to, and not with, starts[s + 1]; the head of link l is the station heads[l].
#[derive(Clone, Copy)]
pub struct Net<'a> {
    starts: &'a [u16],
    heads: &'a [u16],
    ghost some: { 2 ≤ length starts.now },
    ghost few: { length starts.now ≤ 1025 },
    ghost light: { length heads.now ≤ 4096 },
    ghost first: { slice_index starts.now 0 ≡ 0 },
    ghost rising: { Rising starts.now },
    ghost last: { slice_index starts.now (length starts.now - 1) ≡ length heads.now },
    ghost within: { Within starts.now heads.now },
}

pub mod fill;
pub mod lists;
pub mod parts;
pub mod tail;
