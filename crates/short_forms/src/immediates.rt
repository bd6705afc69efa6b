// The immediates of a half, by format.
ghost use Rattle.std.specs.Prelude.{◌≡◌};
ghost use Rattle.short_forms.specs.Fields.{immediate_wide, offset_word, offset_double, immediate_six, immediate_sixteens, immediate_upper};
ghost use Rattle.short_forms.specs.Fields.{offset_jump, offset_branch, offset_load_word, offset_load_double, offset_store_word, offset_store_double};

#[tactic(auto, unfolding(crate::specs::Fields::immediate_wide))]
pub(crate) fn immediate_wide(h: u32) -> u32
    ensures { result ≡ immediate_wide h }
{
    h / 128 % 16 * 64 + h / 0x800 % 4 * 16 + h / 32 % 2 * 8 + h / 64 % 2 * 4
}

#[tactic(auto, unfolding(crate::specs::Fields::offset_word))]
pub(crate) fn offset_word(h: u32) -> u32
    ensures { result ≡ offset_word h }
{
    h / 32 % 2 * 64 + h / 0x400 % 8 * 8 + h / 64 % 2 * 4
}

#[tactic(auto, unfolding(crate::specs::Fields::offset_double))]
pub(crate) fn offset_double(h: u32) -> u32
    ensures { result ≡ offset_double h }
{
    h / 32 % 4 * 64 + h / 0x400 % 8 * 8
}

#[tactic(auto, unfolding(crate::specs::Fields::immediate_six))]
pub(crate) fn immediate_six(h: u32) -> u32
    ensures { result ≡ immediate_six h }
{
    words::sign_extend(h / 0x1000 % 2 * 32 + h / 4 % 32, 6)
}

#[tactic(auto, unfolding(crate::specs::Fields::immediate_sixteens))]
pub(crate) fn immediate_sixteens(h: u32) -> u32
    ensures { result ≡ immediate_sixteens h }
{
    let high = h / 0x1000 % 2 * 512 + h / 8 % 4 * 128 + h / 32 % 2 * 64;
    words::sign_extend(high + h / 4 % 2 * 32 + h / 64 % 2 * 16, 10)
}

#[tactic(auto, unfolding(crate::specs::Fields::immediate_upper))]
pub(crate) fn immediate_upper(h: u32) -> u32
    ensures { result ≡ immediate_upper h }
{
    words::sign_extend(h / 0x1000 % 2 * 0x2_0000 + h / 4 % 32 * 0x1000, 18)
}

#[tactic(auto, unfolding(crate::specs::Fields::offset_jump))]
pub(crate) fn offset_jump(h: u32) -> u32
    ensures { result ≡ offset_jump h }
{
    let high = h / 0x1000 % 2 * 2048 + h / 256 % 2 * 1024 + h / 512 % 4 * 256;
    let middle = h / 64 % 2 * 128 + h / 128 % 2 * 64 + h / 4 % 2 * 32;
    words::sign_extend(high + middle + h / 0x800 % 2 * 16 + h / 8 % 8 * 2, 12)
}

#[tactic(auto, unfolding(crate::specs::Fields::offset_branch))]
pub(crate) fn offset_branch(h: u32) -> u32
    ensures { result ≡ offset_branch h }
{
    let high = h / 0x1000 % 2 * 256 + h / 32 % 4 * 64 + h / 4 % 2 * 32;
    words::sign_extend(high + h / 0x400 % 4 * 8 + h / 8 % 4 * 2, 9)
}

#[tactic(auto, unfolding(crate::specs::Fields::offset_load_word))]
pub(crate) fn offset_load_word(h: u32) -> u32
    ensures { result ≡ offset_load_word h }
{
    h / 4 % 4 * 64 + h / 0x1000 % 2 * 32 + h / 16 % 8 * 4
}

#[tactic(auto, unfolding(crate::specs::Fields::offset_load_double))]
pub(crate) fn offset_load_double(h: u32) -> u32
    ensures { result ≡ offset_load_double h }
{
    h / 4 % 8 * 64 + h / 0x1000 % 2 * 32 + h / 32 % 4 * 8
}

#[tactic(auto, unfolding(crate::specs::Fields::offset_store_word))]
pub(crate) fn offset_store_word(h: u32) -> u32
    ensures { result ≡ offset_store_word h }
{
    h / 128 % 4 * 64 + h / 512 % 16 * 4
}

#[tactic(auto, unfolding(crate::specs::Fields::offset_store_double))]
pub(crate) fn offset_store_double(h: u32) -> u32
    ensures { result ≡ offset_store_double h }
{
    h / 128 % 8 * 64 + h / 0x400 % 8 * 8
}
