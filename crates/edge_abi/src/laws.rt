//! Laws of the definitions.
ghost use Rattle.std.specs.Prelude.{◌≡◌, ◌+◌, ℕ, List, length, take, drop};
ghost use Rattle.wasm_memory.specs.Linear.{Linear};
ghost use Rattle.edge_abi.specs.Memory.{put, number_put};

use wasm_memory::only_the_part_changes;

/// A write changes nothing outside its range: neither what stands before it, nor what stands behind it, nor the length.
pub fn a_write_changes_its_range_alone()
    ensures below { (m : Linear) (place : ℕ) (bytes : List ℕ) → take place (put m place bytes).bytes ≡ take place m.bytes }
    ensures beyond { (m : Linear) (place : ℕ) (bytes : List ℕ) → drop (place + length bytes) (put m place bytes).bytes ≡ drop (place + length bytes) m.bytes }
    ensures len { (m : Linear) (place : ℕ) (bytes : List ℕ) → length (put m place bytes).bytes ≡ length m.bytes }
    ensures most { (m : Linear) (place : ℕ) (bytes : List ℕ) → (put m place bytes).most ≡ m.most }
{
    only_the_part_changes();
}
