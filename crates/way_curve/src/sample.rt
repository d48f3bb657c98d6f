//! The sample of the lines whose hash falls into one of so many equal parts.
ghost use Rattle.std.specs.Prelude.{◌≡◌};
ghost use Rattle.way_curve.specs.Samples.{is_kept as is_kept_in, is_sampled as is_in_sample, line_hash as hash_of};

// The hash of a line: the finalizer of the generator SplitMix64.
#[tactic(auto, unfolding(crate::specs::Samples::line_hash))]
fn line_hash(line: u64) -> u64
    ensures { result ≡ hash_of line }
{
    let mut hash = line;
    hash = (hash ^ (hash >> 30)).wrapping_mul(0xbf58_476d_1ce4_e5b9);
    hash = (hash ^ (hash >> 27)).wrapping_mul(0x94d0_49bb_1331_11eb);
    hash ^ (hash >> 31)
}

/// Whether the sample of one line of so many has this line (this project's profile).
#[tactic(auto, unfolding(crate::specs::Samples::is_sampled))]
pub fn is_sampled(one_of: u32, line: u64) -> bool
    ensures { result ≡ is_in_sample one_of line }
{
    (line_hash(line) >> 32) * u64::from(one_of) < 1 << 32
}

/// Whether a line is in the sample, if one is taken.
pub fn is_kept(one_of: Option<u32>, line: u64) -> bool
    ensures { result ≡ is_kept_in one_of line }
{
    match one_of {
        None => true,
        Some(one_of) => is_sampled(one_of, line),
    }
}
