// Refusals about sheets, and their numbers for C.
ghost use Rattle.std.specs.Prelude.{◌≡◌, ℕ, ◌^◌, ◌<◌};
ghost use Rattle.sheets.specs.Numbers.{error_fits, error_line, error_number};

use crate::SheetError;

// A refusal has a number, and a line where it is a bad one, else 0.
pub trait Refusal: Copy {
    ghost number: { Self → ℕ };

    ghost line: { Self → ℕ };

    // the number leaves room for a line beside it
    ghost fits: { (e : Self) → number e < 2 ^ 16 };

    fn number(self) -> u64
        ensures { result ≡ number self };

    fn line(self) -> usize
        ensures { result ≡ line self };
}

impl Refusal for SheetError {
    ghost number = { error_number };

    ghost line = { error_line };

    ghost fits = { error_fits };

    fn number(self) -> u64 {
        match self {
            SheetError::Bad(_) => 13,
            SheetError::NoRoom => 10,
        }
    }

    fn line(self) -> usize {
        match self {
            SheetError::Bad(n) => n,
            SheetError::NoRoom => 0,
        }
    }
}
