//! In which bucket a configuration is looked up.

ghost use Rattle.std.specs.Prelude.{◌≡◌, ◌<◌, ◌*◌, ◌/◌, ◌^◌};
ghost use Rattle.explore_search.specs.Bucket.{mixed, hash_values, hash_counts, bucket_of};

/// A hash with one more number in it.
pub(crate) fn mix(hash: u64, number: u64) -> u64
    ensures { result ≡ mixed hash number }
{
    let mixed = (hash ^ number).wrapping_mul(0x9E37_79B9_7F4A_7C15);
    mixed ^ (mixed >> 32)
}

fn with_values(hash: u64, values: &[i64]) -> u64
    ensures { result ≡ hash_values hash values.now }
{
    let mut hash = hash;
    'values: for value in values {
        hash = mix(hash, value.cast_unsigned());
    }
    hash
}

fn with_counts(hash: u64, counts: &[u32]) -> u64
    ensures { result ≡ hash_counts hash counts.now }
{
    let mut hash = hash;
    'counts: for count in counts {
        hash = mix(hash, u64::from(*count));
    }
    hash
}

/// The bucket of the configuration of these values and counts.
pub(crate) fn bucket(values: &[i64], left: &[u32], buckets: usize) -> usize
    requires { 0 < buckets }
    ensures value { result ≡ bucket_of buckets values.now left.now }
    ensures below { result < buckets }
{
    scaled(mix(with_values(0, values), with_counts(0, left)), buckets)
}

/// The hash, of all that there are, among so many.
fn scaled(hash: u64, buckets: usize) -> usize
    requires { 0 < buckets }
    ensures value { result ≡ hash * buckets / 2 ^ 64 }
    ensures below { result < buckets }
{
    ((u128::from(hash) * buckets as u128) >> 64) as usize
}
