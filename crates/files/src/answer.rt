// Why a file is refused, and where.
ghost use Rattle.std.specs.Prelude.{◌≡◌};

use timing::Refusal;

// A refusal at an offset of the file.
#[derive(Clone, Copy)]
pub struct Fault {
    pub refusal: Refusal,
    pub at: usize,
}

// A refusal that is no record's is at offset 0.
impl From<Refusal> for Fault {
    ghost from_gives = { λ r f. f ≡ record { refusal = r; at = 0 } };

    fn from(refusal: Refusal) -> Fault {
        Fault { refusal, at: 0 }
    }
}
