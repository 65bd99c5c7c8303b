//! The rank of a key in a search tree.

/// Spreads keys that lie close together, so that a tree in order of the rank is about as deep as one of random ranks.
pub fn rank(key: i64) -> u64 {
    let mixed = key.cast_unsigned().wrapping_add(0x9E37_79B9_7F4A_7C15);
    let mixed = (mixed ^ (mixed >> 30)).wrapping_mul(0xBF58_476D_1CE4_E5B9);
    let mixed = (mixed ^ (mixed >> 27)).wrapping_mul(0x94D0_49BB_1331_11EB);
    mixed ^ (mixed >> 31)
}
