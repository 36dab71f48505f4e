// Unsigned numbers, low byte first.
ghost use Rattle.std.specs.Prelude.{◌≡◌, ◌<◌, ◌≤◌, ◌^◌, length};
ghost use Rattle.laws.specs.Lists.{tabulate};
ghost use Rattle.codec.specs.Bytes.{byte_of, unsigned_at, with_number};

// The number in these bytes.
pub fn number(bytes: &[u8]) -> usize
    requires { length bytes.now ≤ 8 }
    ensures { result ≡ unsigned_at (length bytes.now) bytes.now 0 }
{
    let mut all = [0; 8];
    all[..bytes.len()].copy_from_slice(bytes);
    usize::from_le_bytes(all)
}

// Writes the number into the bytes.
pub fn put_number(bytes: &mut [u8], x: usize)
    requires few { length bytes.old ≤ 8 }
    requires fits_width { x < 256 ^ length bytes.old }
    ensures bytes_after { bytes.new ≡ tabulate (length bytes.old) (byte_of x) }
    ensures placed { bytes.new ≡ with_number (length bytes.old) bytes.old 0 x }
{
    let all = x.to_le_bytes();
    let width = bytes.len();
    bytes.copy_from_slice(&all[..width]);
}
