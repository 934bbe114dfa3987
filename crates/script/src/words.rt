// The words of a line.
ghost use Rattle.std.specs.Prelude.{◌≡◌, [], ◌++◌, IfOk, OnOk};
ghost use Rattle.std.specs.Str.{bytes_eq};
ghost use Rattle.script.specs.Words.{blank, ended, word_bytes, words_of};

use std::alloc::{AllocError, Global};

// Whether a byte parts words: a tab, a carriage return or a space.
fn is_blank(byte: u8) -> bool
    ensures { result ≡ blank byte }
{
    matches!(byte, b'\t' | b'\r' | b' ')
}

// Adds a word, unless it is empty.
fn keep<'a>(out: &mut Vec<&'a [u8]>, word: &'a [u8]) -> Result<(), AllocError>
    ensures { OnOk result (word_bytes out.new.items ≡ word_bytes out.old.items ++ ended word.now []) }
{
    if !word.is_empty() {
        out.push(word)?;
    }
    Ok(())
}

// The words of a line, in their order: its longest runs of bytes that are no blanks.
// A loop, since `split` and `filter` took half as long again on long lines, and more on blanks.
pub fn words(heap: Global, line: &[u8]) -> Result<Vec<&[u8]>, AllocError>
    ensures { IfOk result (λ v. word_bytes v.items ≡ words_of line.now) }
{
    let mut out = Vec::new(heap);
    // Where the word under way begins.
    let mut from = 0;
    for (i, byte) in line.iter().enumerate() {
        if is_blank(*byte) {
            keep(&mut out, &line[from..i])?;
            from = i + 1;
        }
    }
    keep(&mut out, &line[from..line.len()])?;
    Ok(out)
}

// Whether a word reads so.
pub fn reads_as(word: &[u8], name: &str) -> bool
    ensures { result ≡ bytes_eq word.now name.now }
{
    word == name.as_bytes()
}
