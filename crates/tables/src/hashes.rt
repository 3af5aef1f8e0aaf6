// The hash of some words of a row.
ghost use Rattle.std.specs.Prelude.{◌≡◌, ◌<◌};
ghost use Rattle.tables.specs.Links.{hashes, hash_of};

// A hash is below this.
pub const HASHES: usize = 1024;

// A number below 1,024: the upper 10 of 32 bits. The factors are odd, so that every bit of a word counts, and their sum is below 2^32.
// They were searched for: words that rise in steps of 1 to 256, or of small multiples of powers of two or ten, spread, alone and in pairs.
pub(crate) fn hash_of(device: u32, place: u32, name: u32, value: u32) -> usize
    ensures value { result ≡ hash_of device place name value }
    ensures upper_bound { result < hashes }
{
    (device as usize * 947282241
        + place as usize * 1870821409
        + name as usize * 669926575
        + value as usize * 700227275)
        % 4294967296
        / 4194304
}
