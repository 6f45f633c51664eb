// Words from bytes.
ghost use Rattle.std.specs.Prelude.{◌≡◌, ◌<◌, ◌≤◌, ℕ, List, map, take, length};
ghost use Rattle.std.proofs.Common.{rules};
ghost use Rattle.probability.specs.Pieces.{pieces};
ghost use Rattle.report.specs.Report.{little_endian};

// A word of N bytes.
pub trait Word<const N: usize>: Copy {
    // The word that N bytes stand for.
    ghost of_bytes: { List ℕ → Self };

    // Reads it from the bytes.
    fn from_bytes(bytes: [u8; N]) -> Self
        ensures { result ≡ of_bytes bytes.entry };

    // There are bytes, and few.
    ghost size: { (0 < N) × (N ≤ 8) };
}

impl Word<4> for u32 {
    ghost of_bytes = { little_endian };

    ghost size = { Prim.search rules };

    fn from_bytes(bytes: [u8; 4]) -> u32
        ensures { result ≡ little_endian bytes }
    {
        u32::from_le_bytes(bytes)
    }
}

impl Word<8> for u64 {
    ghost of_bytes = { little_endian };

    ghost size = { Prim.search rules };

    fn from_bytes(bytes: [u8; 8]) -> u64
        ensures { result ≡ little_endian bytes }
    {
        u64::from_le_bytes(bytes)
    }
}

// The whole words of some bytes, as many as there is room for.
pub fn decode<'a, W: Word<N>, const N: usize>(bytes: &[u8], room: &'a mut [W]) -> &'a [W]
    ensures { result.now ≡ take (length room.old) (map W.of_bytes (pieces N bytes.now)) }
{
    let chunks = bytes.as_chunks::<N>().0;
    let n = room.len().min(chunks.len());
    for (i, chunk) in chunks[..n].iter().enumerate() {
        room[i] = W::from_bytes(*chunk);
    }
    &room[..n]
}
