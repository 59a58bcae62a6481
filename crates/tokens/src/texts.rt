// A line of text as its words.
ghost use Rattle.std.specs.Prelude.{◌≡◌, [], ◌++◌, is_ok, IfOk, if◌then◌else◌};
ghost use Rattle.std.specs.List.{prefix_len};
ghost use Rattle.tokens.specs.Words.{is_blank, is_plain, uncommented, words_of, ended, spelt};

use std::alloc::{AllocError, Global};

fn is_blank(c: u8) -> bool
    ensures { result ≡ is_blank c }
{
    matches!(c, b' ' | b'\t' | b'\r')
}

/// What stands before a comment.
pub fn uncommented(text: &[u8]) -> &[u8]
    ensures { result.now ≡ uncommented text.now }
{
    &text[..comment_start(text)]
}

// How many characters stand before the first comment.
fn comment_start(text: &[u8]) -> usize
    ensures { result ≡ prefix_len is_plain text.now }
{
    text.iter().take_while(|c| **c != b'#').count()
}

/// The words of a text, each a part of it.
// A Vec and no type of its own, though each clause on words reads them by `spelt`: slice patterns take a slice apart.
//
// A loop, and no chain of `split` and `filter`: what is dropped between words is a step of its own here, so that a word that keeps
// its blank can be told by the proof, and many blanks cost no more than they did.
pub fn words<'a>(heap: Global, text: &'a [u8]) -> Result<Vec<&'a [u8]>, AllocError>
    ensures { IfOk result (λ v. spelt v.items ≡ words_of text.now) }
{
    let mut words = Vec::new(heap);
    let mut start = 0;
    for (i, c) in text.iter().enumerate() {
        if is_blank(*c) {
            end_word(&mut words, &text[start..i])?;
            start = i + 1;
        }
    }
    end_word(&mut words, &text[start..])?;
    Ok(words)
}

// A word that has ended joins the others, if it has any characters.
fn end_word<'a>(words: &mut Vec<&'a [u8]>, word: &'a [u8]) -> Result<(), AllocError>
    ensures { spelt words.new.items ≡ (if is_ok result then spelt words.old.items ++ ended word.now [] else spelt words.old.items) }
{
    if word.is_empty() {
        return Ok(());
    }
    words.push(word)?;
    Ok(())
}
