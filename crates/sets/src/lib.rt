// Sets of numbers below 64 as words: bit i is 1 exactly when i is a member.
#![tactic(auto)]

ghost use Rattle.std.specs.Prelude.{◌≡◌, ℕ, ◌||◌};
ghost use Rattle.sets.specs.Word.{member, joins};

pub fn has(word: u64, i: usize) -> bool
    ensures { result ≡ member word i }
{
    i < 64 && (word >> i) & 1 == 1
}

// The set with i, or the set itself where i is not below 64.
pub fn with(word: u64, i: usize) -> u64
    ensures { (k : ℕ) → member result k ≡ (joins i k || member word k) }
{
    if i < 64 { word | (1 << i) } else { word }
}
