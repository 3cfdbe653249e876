// Dependency words: for a turn, bit 8v + q says that lane v of the arriving channel is followed by lane q of the leaving one.
ghost use Rattle.std.specs.Prelude.{◌≡◌, ℕ, ◌+◌, ◌*◌, ◌<◌, ◌≤◌, true, false, MatchOption};
ghost use Rattle.checking.specs.Words.{bit};

// Whether a bit of the word is set.
fn has(word: u64, place: u8) -> bool
    requires { place < 64 }
    ensures { result ≡ bit word place }
{
    (word >> place) & 1 == 1
}

// The lowest i from `from` on, below 8, such that bit `first` + `step` i of the word is set.
pub(crate) fn lowest(word: u64, first: u8, step: u8, from: u8) -> Option<u8>
    requires { first + 7 * step < 64 }
    ensures { MatchOption result ((i : ℕ) → from ≤ i → i < 8 → bit word (first + step * i) ≡ false) (λ i. (from ≤ i) × (i < 8) × (bit word (first + step * i) ≡ true) × ((k : ℕ) → from ≤ k → k < i → bit word (first + step * k) ≡ false)) }
{
    (from..8).find(|i| has(word, first + step * *i))
}
