// An open site and its invariant.
ghost use Rattle.std.specs.Prelude.{◌≡◌, false, is_some};
ghost use Rattle.net.specs.Table.{table};
ghost use Rattle.net.specs.Judged.{net_fault};

use crate::held::AnyHolding;

// An open site: the two lists of its net, which are one, and what it holds beside it. They are two lists and no struct of both: `Net::fill` takes them so, and the net is that struct.
// It has no `Model`, which would hide `lawful` from who holds a site or a desk.
#[derive(Drop)]
pub struct Site {
    starts: Vec<u16>,
    heads: Vec<u16>,
    held: AnyHolding,
    ghost lawful: { is_some (net_fault (table starts.items heads.items)) ≡ false },
}

pub mod acts;
pub mod commands;
