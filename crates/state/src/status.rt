// mstatus: MIE and MPIE.
ghost use Rattle.std.specs.Prelude.{◌≡◌};
ghost use Rattle.words.specs.Words.{with_bit};
ghost use Rattle.metadata.specs.Rights.{bit};
ghost use Rattle.state.specs.Status.{MIE, MPIE, trap_status, return_status, written_status};

// What bit 3, MIE, and bit 7, MPIE, weigh, and the next bit.
const MIE_WEIGHT: u32 = 8;

const ABOVE_MIE: u32 = 16;

const MPIE_WEIGHT: u32 = 128;

const ABOVE_MPIE: u32 = 256;

// One function for each of the two bits: by a bit's number they would shift, where these divide by a constant.

// mstatus with another MIE.
pub fn with_mie(mstatus: u32, v: u32) -> u32
    ensures { result ≡ with_bit mstatus MIE v }
{
    (mstatus / ABOVE_MIE * 2 + v % 2) * MIE_WEIGHT + mstatus % MIE_WEIGHT
}

// mstatus with another MPIE.
fn with_mpie(mstatus: u32, v: u32) -> u32
    ensures { result ≡ with_bit mstatus MPIE v }
{
    (mstatus / ABOVE_MPIE * 2 + v % 2) * MPIE_WEIGHT + mstatus % MPIE_WEIGHT
}

// Whether interrupts are enabled: MIE, as 0 or 1.
pub fn mie_of(mstatus: u32) -> u32
    ensures { result ≡ bit mstatus MIE }
{
    mstatus / MIE_WEIGHT % 2
}

fn mpie_of(mstatus: u32) -> u32
    ensures { result ≡ bit mstatus MPIE }
{
    mstatus / MPIE_WEIGHT % 2
}

// mstatus on trap entry: MPIE := MIE, MIE := 0.
pub fn trap_status(mstatus: u32) -> u32
    ensures { result ≡ trap_status mstatus }
{
    with_mie(with_mpie(mstatus, mie_of(mstatus)), 0)
}

// mstatus after MRET: MIE := MPIE, MPIE := 1.
pub fn return_status(mstatus: u32) -> u32
    ensures { result ≡ return_status mstatus }
{
    with_mpie(with_mie(mstatus, mpie_of(mstatus)), 1)
}

// mstatus after a CSR instruction wrote a word: MIE and MPIE alone change.
pub fn written_status(mstatus: u32, word: u32) -> u32
    ensures { result ≡ written_status mstatus word }
{
    with_mpie(with_mie(mstatus, mie_of(word)), mpie_of(word))
}
