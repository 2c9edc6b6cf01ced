//! What is put is got again, whatever follows, and what is got was put so.

ghost use Rattle.std.specs.Prelude.{◌≡◌, ◌<◌, ◌^◌, ◌++◌, List, ℕ, length, Some};
ghost use Rattle.std.specs.Int.{w8, w16, w32, w64, to_be_bytes};
ghost use Rattle.ds_wire.specs.Fields.{IsBytes, number_at, bytes_at};

/// What was put, a number of one, two, four or eight bytes or counted bytes, is got again, and the rest is what follows.
pub fn read_again()
    ensures one { (n : ℕ) (rest : List ℕ) → n < 2 ^ 8 → number_at w8 (to_be_bytes w8 n ++ rest) ≡ Some (n, rest) }
    ensures two { (n : ℕ) (rest : List ℕ) → n < 2 ^ 16 → number_at w16 (to_be_bytes w16 n ++ rest) ≡ Some (n, rest) }
    ensures four { (n : ℕ) (rest : List ℕ) → n < 2 ^ 32 → number_at w32 (to_be_bytes w32 n ++ rest) ≡ Some (n, rest) }
    ensures eight { (n : ℕ) (rest : List ℕ) → n < 2 ^ 64 → number_at w64 (to_be_bytes w64 n ++ rest) ≡ Some (n, rest) }
    ensures counted { (piece rest : List ℕ) → bytes_at (length piece) (piece ++ rest) ≡ Some (piece, rest) }
{}

/// What was got, a number of one, two, four or eight bytes or counted bytes, stands in front of the rest as it is put.
pub fn spelled_so()
    ensures one { (input : List ℕ) (n : ℕ) (rest : List ℕ) → IsBytes input → number_at w8 input ≡ Some (n, rest) → (input ≡ to_be_bytes w8 n ++ rest) × (n < 2 ^ 8) }
    ensures two { (input : List ℕ) (n : ℕ) (rest : List ℕ) → IsBytes input → number_at w16 input ≡ Some (n, rest) → (input ≡ to_be_bytes w16 n ++ rest) × (n < 2 ^ 16) }
    ensures four { (input : List ℕ) (n : ℕ) (rest : List ℕ) → IsBytes input → number_at w32 input ≡ Some (n, rest) → (input ≡ to_be_bytes w32 n ++ rest) × (n < 2 ^ 32) }
    ensures eight { (input : List ℕ) (n : ℕ) (rest : List ℕ) → IsBytes input → number_at w64 input ≡ Some (n, rest) → (input ≡ to_be_bytes w64 n ++ rest) × (n < 2 ^ 64) }
    ensures counted { (count : ℕ) (input piece rest : List ℕ) → bytes_at count input ≡ Some (piece, rest) → (input ≡ piece ++ rest) × (length piece ≡ count) }
{}
