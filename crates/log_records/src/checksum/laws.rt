//! What follows of the definition, as functions with empty bodies.
ghost use Rattle.std.specs.Prelude.{◌≡◌, ℕ, List, ◌<◌, ◌^◌, ◌∷◌, ◌++◌, replicate, reverse};
ghost use Rattle.std.specs.List.{range_with_len};
ghost use Rattle.byte_numbers.specs.Bytes.{AreBytes};
ghost use Rattle.log_records.specs.checksum.Division.{crc32c_of, with_bytes};

/// The checksums that RFC 3720 B.4 prints: of 32 bytes of 00h, of FFh, of rising and of falling bytes.
pub fn printed_checksums()
    ensures zeros { crc32c_of (replicate 32 0) ≡ 0x8a9136aa }
    ensures ones { crc32c_of (replicate 32 255) ≡ 0x62a8ab43 }
    ensures rising { crc32c_of (range_with_len 0 32) ≡ 0x46dd794e }
    ensures falling { crc32c_of (reverse (range_with_len 0 32)) ≡ 0x113fdb5c }
{}

/// Bytes may come in parts.
pub fn parts_are_taken_in_turn()
    ensures { (remainder : ℕ) (front back : List ℕ) → with_bytes remainder (front ++ back) ≡ with_bytes (with_bytes remainder front) back }
{}

/// The checksum of bytes has 32 bits.
pub fn checksums_fit()
    ensures { (bytes : List ℕ) → AreBytes bytes → crc32c_of bytes < 2 ^ 32 }
{}

/// Bytes that differ in one byte have different checksums.
pub fn changed_bytes_are_met()
    ensures { (front back : List ℕ) (one other : ℕ) → AreBytes (front ++ one ∷ back) → other < 256
        → crc32c_of (front ++ one ∷ back) ≡ crc32c_of (front ++ other ∷ back) → one ≡ other }
{}
