// The two lists of a `net` line.
ghost use Rattle.std.specs.Prelude.{◌≡◌, ◌<◌, length};
ghost use Rattle.std.specs.Option.{SomeIff};
ghost use Rattle.net.specs.Table.{table};
ghost use Rattle.script.specs.Words.{word_bytes};
ghost use Rattle.reading.specs.Reading.{Got};
ghost use Rattle.reading.specs.Nets.{slash_at, net_read};

use crate::read::read_all;
use answers::trouble::Trouble;
use script::words::reads_as;
use std::alloc::Global;

// The index of the first word `/` after the command.
fn slash(words: &[&[u8]]) -> Option<usize>
    ensures { SomeIff result (slash_at (word_bytes words.now) < length words.now) (slash_at (word_bytes words.now)) }
{
    words
        .iter()
        .skip(1)
        .position(|word| reads_as(word, "/"))
        .map(|i| i + 1)
}

// The starts and the heads of a `net` line.
pub fn read_net(heap: Global, words: &[&[u8]]) -> Result<(Vec<u16>, Vec<u16>), Trouble>
    ensures { Got (λ p. table p.0.items p.1.items) (net_read (word_bytes words.now)) result }
{
    let slash = slash(words);
    let starts = read_all(heap, &words[..slash.unwrap_or(words.len())], 1)?;
    let at = slash.ok_or(Trouble::NoSlash)?;
    let heads = read_all(heap, words, at + 1)?;
    Ok((starts, heads))
}
