// The digest of a frame.
ghost use Rattle.std.specs.Prelude.{◌≡◌, ◌<◌};
ghost use Rattle.replay.specs.Digest.{digest_from};

// A number of 32 bits that depends on every byte and its place.
pub fn digest_of(frame: &[u8]) -> u64
    ensures value { result ≡ digest_from 0 frame.now }
    ensures upper_bound { result < 4294967291 }
{
    let mut digest: u64 = 0;
    for byte in frame {
        digest = (digest * 257 + u64::from(*byte) + 1) % 4_294_967_291;
    }
    digest
}
