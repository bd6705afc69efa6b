// The immediates of an instruction word, by format; the fields themselves are cut out in `decode_for`.
ghost use Rattle.std.specs.Prelude.{◌≡◌};
ghost use Rattle.instructions.specs.Fields.{immediate_i, immediate_s, immediate_b, immediate_u, immediate_j, offset_aui};

// 2^n by its n: divided by 2^a and cut to 2^b, a word gives the b bits that begin at bit a.
pub(crate) const POW_3: u32 = 1 << 3;

pub(crate) const POW_4: u32 = 1 << 4;

pub(crate) const POW_5: u32 = 1 << 5;

pub(crate) const POW_6: u32 = 1 << 6;

pub(crate) const POW_7: u32 = 1 << 7;

pub(crate) const POW_8: u32 = 1 << 8;

pub(crate) const POW_10: u32 = 1 << 10;

pub(crate) const POW_11: u32 = 1 << 11;

pub(crate) const POW_12: u32 = 1 << 12;

pub(crate) const POW_15: u32 = 1 << 15;

pub(crate) const POW_20: u32 = 1 << 20;

pub(crate) const POW_21: u32 = 1 << 21;

pub(crate) const POW_25: u32 = 1 << 25;

pub(crate) const POW_31: u32 = 1 << 31;

#[tactic(auto, unfolding(crate::specs::Fields::immediate_i))]
pub(crate) fn imm_i(w: u32) -> u32
    ensures { result ≡ immediate_i w }
{
    words::sign_extend(w / POW_20 % POW_12, 12)
}

#[tactic(auto, unfolding(crate::specs::Fields::immediate_s))]
pub(crate) fn imm_s(w: u32) -> u32
    ensures { result ≡ immediate_s w }
{
    words::sign_extend(w / POW_25 % POW_7 * POW_5 + w / POW_7 % POW_5, 12)
}

#[tactic(auto, unfolding(crate::specs::Fields::immediate_b))]
pub(crate) fn imm_b(w: u32) -> u32
    ensures { result ≡ immediate_b w }
{
    let high = w / POW_31 % 2 * POW_12 + w / POW_7 % 2 * POW_11;
    words::sign_extend(
        high + w / POW_25 % POW_6 * POW_5 + w / POW_8 % POW_4 * 2,
        13,
    )
}

#[tactic(auto, unfolding(crate::specs::Fields::immediate_u))]
pub(crate) fn imm_u(w: u32) -> u32
    ensures { result ≡ immediate_u w }
{
    w / POW_12 % POW_20 * POW_12
}

#[tactic(auto, unfolding(crate::specs::Fields::immediate_j))]
pub(crate) fn imm_j(w: u32) -> u32
    ensures { result ≡ immediate_j w }
{
    let high = w / POW_31 % 2 * POW_20 + w / POW_12 % POW_8 * POW_12;
    words::sign_extend(high + w / POW_20 % 2 * POW_11 + w / POW_21 % POW_10 * 2, 21)
}

#[tactic(auto, unfolding(crate::specs::Fields::offset_aui))]
pub(crate) fn aui_offset(w: u32) -> u32
    ensures { result ≡ offset_aui w }
{
    words::sll(words::sign_extend(w / POW_12 % POW_20, 20), 11)
}
