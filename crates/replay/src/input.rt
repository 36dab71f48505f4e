// Standard input, piece by piece. A failed read counts as the end.
ghost use Rattle.std.specs.Prelude.{◌≤◌, length, IfSome};

// A number whose low byte comes first. An impl for each type: `from_le_bytes` is of no trait of std, and `rt ci` takes no impl that a macro of this repository
// writes. One function over `from_le_bytes` was tried: the prover covers no bound `Fn([u8; N])` whose N is a parameter.
pub trait Number {
    fn next() -> Option<Self>;
}

impl Number for u8 {
    fn next() -> Option<u8> {
        bytes().map(u8::from_le_bytes)
    }
}

impl Number for u16 {
    fn next() -> Option<u16> {
        bytes().map(u16::from_le_bytes)
    }
}

impl Number for i32 {
    fn next() -> Option<i32> {
        bytes().map(i32::from_le_bytes)
    }
}

impl Number for i64 {
    fn next() -> Option<i64> {
        bytes().map(i64::from_le_bytes)
    }
}

impl Number for usize {
    fn next() -> Option<usize> {
        bytes().map(usize::from_le_bytes)
    }
}

fn bytes<const N: usize>() -> Option<[u8; N]> {
    let mut bytes = [0; N];
    fill_bytes(&mut bytes)?;
    Some(bytes)
}

fn fill_bytes(list: &mut [u8]) -> Option<()> {
    (io::read_full(0, list) == list.len()).then_some(())
}

pub fn fill<T: Number + Copy>(list: &mut [T]) -> Option<()> {
    for x in list {
        *x = T::next()?;
    }
    Some(())
}

// As much of `room` as the count that comes says.
pub fn part<T>(room: &mut [T]) -> Option<&mut [T]>
    ensures { IfSome result (λ part. length part.now ≤ length room.old) }
{
    let count = u16::next()?;
    room.get_mut(..usize::from(count))
}

// That part, with the numbers that come.
pub fn list<T: Number + Copy>(room: &mut [T]) -> Option<&mut [T]>
    ensures { IfSome result (λ list. length list.now ≤ length room.old) }
{
    let list = part(room)?;
    fill(list)?;
    Some(list)
}

// That part, with the bytes that come. Not `list` of bytes, for they are read at once.
pub fn file(room: &mut [u8]) -> Option<&mut [u8]> {
    let file = part(room)?;
    fill_bytes(file)?;
    Some(file)
}
