//! Laws on bytes.

ghost use Rattle.std.specs.Prelude.{◌≡◌, ◌+◌, ◌%◌, ◌^◌, ◌≤◌, ℕ, List, length, take, drop};
ghost use Rattle.wasm_memory.specs.Bytes.{bytes_at, number_of, bytes_of, written};

/// A number that is written in k bytes is read as what it is modulo 256 to the k.
pub fn number_in_bytes()
    ensures { (k n : ℕ) → number_of (bytes_of k n) ≡ n % 256 ^ k }
{}

/// What was written is what stands there.
pub fn what_is_written_is_there()
    ensures { (memory bytes : List ℕ) (place : ℕ) → place + length bytes ≤ length memory → bytes_at (written memory place bytes) place (length bytes) ≡ bytes }
{}

/// No other byte changes, and none comes or goes.
pub fn only_the_part_changes()
    ensures below { (memory bytes : List ℕ) (place : ℕ) → place + length bytes ≤ length memory → take place (written memory place bytes) ≡ take place memory }
    ensures beyond { (memory bytes : List ℕ) (place : ℕ) → place + length bytes ≤ length memory
        → drop (place + length bytes) (written memory place bytes) ≡ drop (place + length bytes) memory }
    ensures len { (memory bytes : List ℕ) (place : ℕ) → place + length bytes ≤ length memory → length (written memory place bytes) ≡ length memory }
{}

/// A part that was lent and has its length is what stands there then.
pub fn a_part_is_written()
    ensures { (memory part : List ℕ) (place : ℕ) → place + length part ≤ length memory → take (length memory) (written memory place part) ≡ written memory place part }
{}
