// The words of a line, and the numbers below 65,536 that words write.
ghost use Rattle.std.specs.Prelude.{ℕ, IfOk, MatchOption};
ghost use Rattle.workbench.specs.Words.{WordsOf, Writes};

use std::alloc::{AllocError, Global};

// The words of a line, between white space.
pub fn words<'a>(heap: Global, line: &'a str) -> Result<Vec<&'a str>, AllocError>
    ensures { IfOk result (λ v. WordsOf line.now v.items) }
{
    let mut words = Vec::new(heap);
    for word in line.split_ascii_whitespace() {
        words.push(word)?;
    }
    Ok(words)
}

// The number below 65,536 that a word writes.
pub(crate) fn short(word: &str) -> Option<u16>
    ensures { MatchOption result ((n : ℕ) → Writes 16 word.now n → ⊥) (Writes 16 word.now) }
{
    word.parse().ok()
}
