//! From how many packets on a list has its ICVs computed side by side.

/// Right for x86-64-v2. `tools/library.sh` writes 2 here while it builds for x86-64-v3, where lanes pay from
/// two packets on.
pub const LANES_FROM: usize = 6;
