// Names in sixteen bytes: letters, and zeros after them.
ghost use Rattle.std.specs.Prelude.{◌≡◌, ◌≤◌, length, drop};
ghost use Rattle.sheets.specs.Sheet.{all_zero, is_letter, letters_of, same};

// The bytes that hold a name.
pub const NAME_BYTES: usize = 16;

// Whether a byte is a lower-case letter.
#[tactic(auto, unfolding(crate::specs::Sheet::is_letter))]
pub(crate) fn is_letter(b: u8) -> bool
    ensures { result ≡ is_letter b }
{
    b.is_ascii_lowercase()
}

// How many letters a name begins with.
pub fn letters(name: [u8; 16]) -> usize
    ensures { (result ≡ length (letters_of name)) × (result ≤ 16) × (length name ≡ 16) }
{
    name.iter().take_while(|b| is_letter(**b)).count()
}

// Whether only zeros follow from an index on.
#[tactic(auto, unfolding(crate::specs::Sheet::all_zero))]
pub(crate) fn zero_from(name: [u8; 16], from: usize) -> bool
    ensures { result ≡ all_zero (drop from name) }
{
    name.iter().skip(from).all(|b| *b == 0)
}

// Whether two names are one.
#[tactic(auto, unfolding(crate::specs::Sheet::same))]
pub fn same(a: [u8; 16], b: [u8; 16]) -> bool
    ensures { result ≡ same a b }
{
    a == b
}
