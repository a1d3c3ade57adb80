//! Laws: what is written is read as the same, and what is read is written as the same.
ghost use Rattle.std.specs.Prelude.{◌≡◌, ◌<◌, ◌≤◌, ◌^◌, List, ℕ, ℤ, Some, length, FitsSigned};
ghost use Rattle.std.specs.List.{AllByRecursion};
ghost use Rattle.std.specs.Int.{w64};
ghost use Rattle.std.specs.Fmt.{decimal, signed_decimal};
ghost use Rattle.number_text.specs.Numbers.{number, whole_number};
ghost use Rattle.number_text.specs.Lists.{list_of, list_text};
ghost use Rattle.number_text.specs.Cores.{cores_in_text, cores_text};
ghost use Rattle.number_text.specs.Worked.{WorkedNumbers};

/// A text is the number that it spells, and each number of u64 has one text.
#[tactic(auto, using(crate::proofs::Writing::number_written, crate::proofs::Spelling::number_spelled, crate::proofs::Reading::number_fits))]
pub fn law_number()
    ensures written { (n : ℕ) → n < 2 ^ 64 → number (decimal n) ≡ Some n }
    ensures read { (text : List ℕ) (n : ℕ) → number text ≡ Some n → decimal n ≡ text }
    ensures range { (text : List ℕ) (n : ℕ) → number text ≡ Some n → n < 2 ^ 64 }
{}

/// The same of i64.
#[tactic(auto, using(crate::proofs::Writing::whole_written, crate::proofs::Spelling::whole_spelled, crate::proofs::Reading::whole_fits))]
pub fn law_whole()
    ensures written { (z : ℤ) → FitsSigned w64 z → whole_number (signed_decimal z) ≡ Some z }
    ensures read { (text : List ℕ) (z : ℤ) → whole_number text ≡ Some z → signed_decimal z ≡ text }
    ensures range { (text : List ℕ) (z : ℤ) → whole_number text ≡ Some z → FitsSigned w64 z }
{}

/// The same of lists of 1 to 16 numbers.
#[tactic(auto, using(crate::proofs::Writing::list_written, crate::proofs::Spelling::list_spelled))]
pub fn law_list()
    ensures written { (zs : List ℤ) → 1 ≤ length zs → length zs ≤ 16 → AllByRecursion (FitsSigned w64) zs
        → list_of (list_text zs) ≡ Some zs }
    ensures read { (text : List ℕ) (zs : List ℤ) → list_of text ≡ Some zs → list_text zs ≡ text }
    ensures range { (text : List ℕ) (zs : List ℤ) → list_of text ≡ Some zs
        → (1 ≤ length zs) × (length zs ≤ 16) × AllByRecursion (FitsSigned w64) zs }
{}

/// The same of sets of cores that aren't empty.
#[tactic(auto, using(crate::proofs::Writing::cores_written, crate::proofs::Spelling::cores_spelled, crate::proofs::Reading::cores_fit))]
pub fn law_cores()
    ensures written { (mask : ℕ) → 0 < mask → mask < 2 ^ 64 → cores_in_text (cores_text mask) ≡ Some mask }
    ensures read { (text : List ℕ) (mask : ℕ) → cores_in_text text ≡ Some mask → cores_text mask ≡ text }
    ensures range { (text : List ℕ) (mask : ℕ) → cores_in_text text ≡ Some mask → (0 < mask) × (mask < 2 ^ 64) }
{}

/// Worked texts of numbers, lists and sets of cores.
pub fn worked_numbers()
    ensures { WorkedNumbers }
{}
