// Reading values from words. Casts lose nothing, which is proved; `TryFrom` would add a case that cannot come.
ghost use Rattle.std.specs.Prelude.{◌≡◌, ℕ, ◌+◌, List, drop, vec_items, Option};
ghost use Rattle.answers.specs.declared.trouble.Bounds.{Bounds};
ghost use Rattle.reading.specs.Spelling.{short_read, long_read, airtime_read, chance_reading, margin_read};
ghost use Rattle.script.specs.Words.{word_bytes};
ghost use Rattle.reading.specs.Reading.{read_all, word_read, Got};

use answers::trouble::{Bounds, Trouble};
use kinds::airtime::Airtime;
use kinds::chance::Chance;
use kinds::margin::Margin;
use script::number::{decibels, number};
use std::alloc::Global;

// What can be read from a word.
pub trait Readable: Copy {
    ghost reads: { List ℕ → Option Self };

    ghost bounds: { Bounds };

    fn read(word: &[u8]) -> Option<Self>
        ensures { result ≡ reads word.now };

    fn bounds() -> Bounds
        ensures { result ≡ bounds };
}

impl Readable for u16 {
    ghost reads = { short_read };

    ghost bounds = { Bounds.Short };

    fn read(word: &[u8]) -> Option<u16> {
        number(word, 65535).map(|n| n as u16)
    }

    fn bounds() -> Bounds {
        Bounds::Short
    }
}

impl Readable for u32 {
    ghost reads = { long_read };

    ghost bounds = { Bounds.Long };

    fn read(word: &[u8]) -> Option<u32> {
        number(word, u32::MAX)
    }

    fn bounds() -> Bounds {
        Bounds::Long
    }
}

impl Readable for Airtime {
    ghost reads = { airtime_read };

    ghost bounds = { Bounds.Long };

    fn read(word: &[u8]) -> Option<Airtime> {
        u32::read(word).map(Airtime::new)
    }

    fn bounds() -> Bounds {
        u32::bounds()
    }
}

impl Readable for Chance {
    ghost reads = { chance_reading };

    ghost bounds = { Bounds.Long };

    fn read(word: &[u8]) -> Option<Chance> {
        u32::read(word).map(Chance::read)
    }

    fn bounds() -> Bounds {
        u32::bounds()
    }
}

impl Readable for Margin {
    ghost reads = { margin_read };

    ghost bounds = { Bounds.Decibels };

    fn read(word: &[u8]) -> Option<Margin> {
        decibels(word).map(Margin::new)
    }

    fn bounds() -> Bounds {
        Bounds::Decibels
    }
}

// The value that a word spells, which is the word of this number of its line, counted from 1.
pub fn read_word<T: Readable>(word: &[u8], number: usize) -> Result<T, Trouble>
    ensures { result ≡ word_read T.Readable.reads T.Readable.bounds word.now number }
{
    T::read(word).ok_or(Trouble::NotNumber(number, T::bounds()))
}

// The heap and the words of a line stay two parameters here and above, since the library passes the allocator alone, and first.

// The values that the words from an index on spell, or what is wrong with the first that spells none.
pub(crate) fn read_all<T: Readable>(
    heap: Global,
    words: &[&[u8]],
    from: usize,
) -> Result<Vec<T>, Trouble>
    ensures { Got vec_items (read_all T.Readable.reads T.Readable.bounds (from + 1) (drop from (word_bytes words.now))) result }
{
    let mut out = Vec::new(heap);
    // A loop, since `try_collect` does not ensure that it fails where an item fails.
    for (at, word) in words.iter().enumerate().skip(from) {
        out.push(read_word(word, at + 1)?)?;
    }
    Ok(out)
}

// The values that all words after the first spell.
pub fn read_rest<T: Readable>(heap: Global, words: &[&[u8]]) -> Result<Vec<T>, Trouble>
    ensures { Got vec_items (read_all T.Readable.reads T.Readable.bounds 2 (drop 1 (word_bytes words.now))) result }
{
    read_all(heap, words, 1)
}
