// Signed numbers: two's complement, low byte first. That there are at most eight bytes stays a clause, here and in `unsigned`: a const width would ask the callers for
// arrays, and they lend parts of files and of runs of bytes.
ghost use Rattle.std.specs.Prelude.{◌≡◌, ◌≤◌, ◌<◌, T, length};
ghost use Rattle.laws.specs.Lists.{tabulate};
ghost use Rattle.codec.specs.Bytes.{byte_of, pattern, in_width, signed_at, with_number};

// What the bytes above a number hold whose highest byte this is: the sign.
fn sign(highest: u8) -> u8
    ensures low { highest < 128 → result ≡ 0 }
    ensures high { 128 ≤ highest → result ≡ 255 }
{
    if highest < 128 { 0 } else { 255 }
}

// The number in these bytes.
pub fn decode(bytes: &[u8]) -> i64
    requires some { 1 ≤ length bytes.now }
    requires few { length bytes.now ≤ 8 }
    ensures { result ≡ signed_at (length bytes.now) bytes.now 0 }
{
    let mut all = [sign(bytes[bytes.len() - 1]); 8];
    all[..bytes.len()].copy_from_slice(bytes);
    i64::from_le_bytes(all)
}

// Writes the number into the bytes. Not one generic function with `unsigned::put_number`: which numbers have so many bytes, and what the bytes are, differs, and a trait
// that says both would be longer than the two bodies.
pub fn encode(bytes: &mut [u8], x: i64)
    requires few { length bytes.old ≤ 8 }
    requires fits_width { T (in_width (length bytes.old) x) }
    ensures bytes_after { bytes.new ≡ tabulate (length bytes.old) (byte_of (pattern (length bytes.old) x)) }
    ensures placed { bytes.new ≡ with_number (length bytes.old) bytes.old 0 (pattern (length bytes.old) x) }
{
    let all = x.to_le_bytes();
    let width = bytes.len();
    bytes.copy_from_slice(&all[..width]);
}
