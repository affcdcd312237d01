//! What follows from the definitions alone. No function here does anything.
ghost use Rattle.std.specs.Prelude.{◌≡◌, ◌<◌, ◌≤◌, ℕ, List, length};
ghost use Rattle.std.specs.List.{AllByRecursion};
ghost use Rattle.mac.specs.KeyMaterial.{prf_plus};

/// Key material (RFC 7296, section 2.13) has as many octets as are asked for, up to 8160.
pub fn key_material_is_octets()
    ensures length { (key seed : List ℕ) (count : ℕ) → count ≤ 8160
        → length (prf_plus key seed count) ≡ count }
    ensures octets { (key seed : List ℕ) (count : ℕ)
        → AllByRecursion (λ octet. octet < 256) (prf_plus key seed count) }
{}
