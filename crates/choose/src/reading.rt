// The reading of a file.
ghost use Rattle.std.specs.Prelude.{ℕ, ◌+◌, ◌^◌, ◌<◌, ◌≤◌, min, ◌≡◌, List, ◌++◌, length, take, IfOk};
ghost use Rattle.std.specs.Io.{ReadsAtMost};
ghost use Rattle.std.specs.Io.KnownBytes.{Consumes, ConsumesCount, IsAtEnd, ReadConsumes};

use std::fs::File;
use std::io;
use std::io::{ErrorKind, Read};
use std::rt::Files;

// Where counting stops at the latest, since one piece more might not fit; no file is that long.
const MOST_COUNTED: usize = usize::MAX - 65536;

// How often a read is tried again when signals interrupt it.
const MOST_TRIES: usize = 1000;

// What was read of a file: its first bytes, as many as fit, how many these are, and how many were counted in all.
#[derive(Drop)]
pub struct Contents<const N: usize> {
    pub bytes: [u8; N],
    pub kept: usize,
    pub size: usize,
    pub ghost fits: { kept ≡ min size (length bytes) },
}

impl<const N: usize> Contents<N> {
    // Those of an empty file.
    pub fn new() -> Contents<N>
        ensures { result.size ≡ 0 }
    {
        Contents {
            bytes: [0; N],
            kept: 0,
            size: 0,
        }
    }

    // Reads a file until it ends, or the bytes are full and `most` are counted; one that cannot be read counts as empty.
    pub fn read(&mut self, rt: &impl Files, path: &str, most: usize)
        ensures { self.new.kept ≡ min self.new.size N }
    {
        let extent = read_file(rt, path, &mut self.bytes, most).unwrap_or(Extent::EMPTY);
        self.kept = extent.kept;
        self.size = extent.size;
    }

    // The bytes that were kept.
    pub fn kept_bytes(&self) -> &[u8]
        ensures is { result.now ≡ take self.now.size self.now.bytes }
        ensures room { length self.now.bytes ≡ N }
    {
        &self.bytes[..self.kept]
    }
}

// How many bytes of a file were kept, and how many were counted in all.
#[derive(Drop)]
struct Extent {
    kept: usize,
    size: usize,
}

impl Extent {
    // That of an empty file.
    const EMPTY: Extent = Extent { kept: 0, size: 0 };
}

// Reads a file into `bytes` until it ends, or they are full and `most` are counted.
fn read_file(rt: &impl Files, path: &str, bytes: &mut [u8], most: usize) -> io::Result<Extent>
    ensures { IfOk result (λ e. e.kept ≡ min e.size (length bytes.new)) }
{
    let mut file = File::open(rt, path)?;
    read_all(&mut file, bytes, most)
}

// Reads into `bytes` until they are full, and counts on until nothing is left or `most` are counted.
fn read_all<R: Read>(file: &mut R, bytes: &mut [u8], most: usize) -> io::Result<Extent>
    ensures kept { IfOk result (λ e. e.kept ≡ min e.size (length bytes.new)) }
    ensures read { IfOk result (λ e. (more : List ℕ) × (e.size ≡ e.kept + length more)
        × Consumes (R.remaining file.old) (R.remaining file.new) (take e.kept bytes.new ++ more)) }
    ensures end { IfOk result (λ e. e.size < min most MOST_COUNTED → IsAtEnd (R.remaining file.new)) }
{
    let kept = fill(file, bytes)?;
    if kept < bytes.len() {
        return Ok(Extent { kept, size: kept });
    }
    let size = count_on(file, kept, most)?;
    Ok(Extent { kept, size })
}

// Reads until the bytes are full or nothing is left.
fn fill<R: Read>(file: &mut R, bytes: &mut [u8]) -> io::Result<usize>
    ensures bound { ReadsAtMost result bytes.new }
    ensures read { IfOk result (λ n. Consumes (R.remaining file.old) (R.remaining file.new) (take n bytes.new)) }
    ensures end { IfOk result (λ n. n < length bytes.new → IsAtEnd (R.remaining file.new)) }
{
    let mut done = 0;
    while done < bytes.len() {
        let n = read_some(file, &mut bytes[done..])?;
        if n == 0 {
            break;
        }
        done += n;
    }
    Ok(done)
}

// Counts on from the bytes that were kept, until nothing is left or `most` are counted.
fn count_on<R: Read>(file: &mut R, kept: usize, most: usize) -> io::Result<usize>
    ensures read { IfOk result (λ size. (more : List ℕ) × (size ≡ kept + length more)
        × Consumes (R.remaining file.old) (R.remaining file.new) more) }
    ensures end { IfOk result (λ size. size < min most MOST_COUNTED → IsAtEnd (R.remaining file.new)) }
{
    let mut size = kept;
    while size < most.min(MOST_COUNTED) {
        let n = read_piece(file)?;
        if n == 0 {
            break;
        }
        size += n;
    }
    Ok(size)
}

// Reads a piece that nothing keeps.
fn read_piece<R: Read>(file: &mut R) -> io::Result<usize>
    ensures bound { IfOk result (λ n. n ≤ 2 ^ 16) }
    ensures read { ConsumesCount (R.remaining file.old) (R.remaining file.new) result }
    ensures end { IfOk result (λ n. n ≡ 0 → IsAtEnd (R.remaining file.new)) }
{
    let mut piece = [0u8; 65536];
    read_some(file, &mut piece)
}

// Reads once; a read that a signal interrupts is tried again.
fn read_some<R: Read>(file: &mut R, bytes: &mut [u8]) -> io::Result<usize>
    ensures bound { ReadsAtMost result bytes.new }
    ensures read { ReadConsumes (R.remaining file.old) (R.remaining file.new) result bytes.new }
{
    for _ in 0..MOST_TRIES {
        match file.read(bytes) {
            Err(error) if error.kind() == ErrorKind::Interrupted => {}
            result => return result,
        }
    }
    Err(io::Error::from(ErrorKind::Interrupted))
}
