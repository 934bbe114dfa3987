// The branch of a station in the tree of entries: its type.
ghost use Rattle.std.specs.Prelude.{◌≡◌, false, length, slice_index_or};
ghost use Rattle.lists.specs.Meaning.{count_below};

// The branch of a station: the stations whose backward walk comes to it; a mark for each, and how many there are.
// It has no `Model`: contracts see its marks by `marked`.
#[derive(Drop)]
pub struct Branch {
    marks: [bool; 1024],
    count: u16,
    ghost room: { length marks ≡ 1024 },
    ghost counted: { count ≡ count_below (λ v. slice_index_or marks v false) 1024 },
}

mod marks;
pub mod search;
