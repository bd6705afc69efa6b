// The form that a half is, a quadrant at a time, in the order of the standard's tables. An arm of a match returns at once.
// Both engines have quadrants of their own, of the same leaves: see short_form_for.
ghost use Rattle.std.specs.Prelude.{◌≡◌};
ghost use Rattle.short_forms.specs.Forms.{addi4spn_of, quadrant0, addi16sp_of, upper_of, two_of, arithmetic_of, quadrant1, slli_of, lwsp_of, ldsp_of};
ghost use Rattle.short_forms.specs.Forms.{moves_of, adds_of};
ghost use Rattle.short_forms.specs.Forms.{registers_of, quadrant2};

use crate::ShortForm;
use crate::immediates::{
    immediate_six, immediate_sixteens, immediate_upper, immediate_wide, offset_branch,
    offset_double, offset_jump, offset_load_double, offset_load_word, offset_store_double,
    offset_store_word, offset_word,
};

// Quadrant 0.
#[tactic(auto, using(words::proofs::Tests::tests), unfolding(crate::specs::Forms::addi4spn_of))]
fn addi4spn(rd: u32, value: u32) -> ShortForm
    ensures { result ≡ addi4spn_of rd value }
{
    match value {
        0 => return ShortForm::NoForm,
        _ => return ShortForm::Addi4spn { rd, value },
    }
}

#[tactic(auto, using(words::proofs::Tests::tests), unfolding(crate::specs::Forms::quadrant0))]
pub(crate) fn quadrant_0<const KEPT: bool>(h: u32) -> ShortForm
    ensures { result ≡ quadrant0 h }
{
    let low = 8 + h / 4 % 8;
    let high = 8 + h / 128 % 8;
    match h / 0x2000 % 8 {
        0 => return addi4spn(low, immediate_wide(h)),
        2 => return ShortForm::Lw {
            rd: low,
            rs1: high,
            offset: offset_word(h),
        },
        3 => return ShortForm::Ld {
            rd: low,
            rs1: high,
            offset: offset_double(h),
        },
        6 => return ShortForm::Sw {
            rs1: high,
            rs2: low,
            offset: offset_word(h),
        },
        7 => return ShortForm::Sd {
            rs1: high,
            rs2: low,
            offset: offset_double(h),
        },
        _ => return ShortForm::NoForm,
    }
}

// Quadrant 1.
#[tactic(auto, using(words::proofs::Tests::tests), unfolding(crate::specs::Forms::addi16sp_of))]
fn addi16sp(value: u32) -> ShortForm
    ensures { result ≡ addi16sp_of value }
{
    match value {
        0 => return ShortForm::NoForm,
        _ => return ShortForm::Addi16sp { value },
    }
}

#[tactic(auto, using(words::proofs::Tests::tests), unfolding(crate::specs::Forms::upper_of))]
fn upper(rd: u32, value: u32) -> ShortForm
    ensures { result ≡ upper_of rd value }
{
    match value {
        0 => return ShortForm::NoForm,
        _ => return ShortForm::Lui { rd, value },
    }
}

#[tactic(auto, using(words::proofs::Tests::tests), unfolding(crate::specs::Forms::two_of))]
fn two(f2: u32, rd: u32, rs2: u32) -> ShortForm
    ensures { result ≡ two_of f2 rd rs2 }
{
    match f2 {
        0 => return ShortForm::Sub { rd, rs2 },
        1 => return ShortForm::Xor { rd, rs2 },
        2 => return ShortForm::Or { rd, rs2 },
        _ => return ShortForm::And { rd, rs2 },
    }
}

// Bit 12, then bits 11 and 10: a shift by 32 or more and the forms on 32 bits of 64 are none here.
#[tactic(auto, using(words::proofs::Tests::tests), unfolding(crate::specs::Forms::arithmetic_of))]
fn arithmetic(f: u32, f2: u32, rd: u32, rs2: u32, shamt: u32, value: u32) -> ShortForm
    ensures { result ≡ arithmetic_of f f2 rd rs2 shamt value }
{
    match f {
        0 => return ShortForm::Srli { rd, shamt },
        1 => return ShortForm::Srai { rd, shamt },
        2 => return ShortForm::Andi { rd, value },
        3 => return two(f2, rd, rs2),
        6 => return ShortForm::Andi { rd, value },
        _ => return ShortForm::NoForm,
    }
}

#[tactic(auto, using(words::proofs::Tests::tests), unfolding(crate::specs::Forms::quadrant1))]
pub(crate) fn quadrant_1<const KEPT: bool>(h: u32) -> ShortForm
    ensures { result ≡ quadrant1 h }
{
    let rd = h / 128 % 32;
    let high = 8 + h / 128 % 8;
    let low = 8 + h / 4 % 8;
    let shamt = h / 4 % 32;
    let f = h / 0x400 % 8;
    let f2 = h / 32 % 4;
    match h / 0x2000 % 8 {
        0 => return ShortForm::Addi {
            rd,
            value: immediate_six(h),
        },
        1 => return ShortForm::Jal {
            offset: offset_jump(h),
        },
        2 => return ShortForm::Li {
            rd,
            value: immediate_six(h),
        },
        3 => match rd {
            2 => return addi16sp(immediate_sixteens(h)),
            _ => return upper(rd, immediate_upper(h)),
        },
        4 => return arithmetic(f, f2, high, low, shamt, immediate_six(h)),
        5 => return ShortForm::J {
            offset: offset_jump(h),
        },
        6 => return ShortForm::Beqz {
            rs1: high,
            offset: offset_branch(h),
        },
        _ => return ShortForm::Bnez {
            rs1: high,
            offset: offset_branch(h),
        },
    }
}

// Quadrant 2.
#[tactic(auto, using(words::proofs::Tests::tests), unfolding(crate::specs::Forms::slli_of))]
fn slli(f: u32, rd: u32, shamt: u32) -> ShortForm
    ensures { result ≡ slli_of f rd shamt }
{
    match f {
        0 => return ShortForm::Slli { rd, shamt },
        _ => return ShortForm::NoForm,
    }
}

#[tactic(auto, using(words::proofs::Tests::tests), unfolding(crate::specs::Forms::lwsp_of))]
fn lwsp(rd: u32, offset: u32) -> ShortForm
    ensures { result ≡ lwsp_of rd offset }
{
    match rd {
        0 => return ShortForm::NoForm,
        _ => return ShortForm::Lwsp { rd, offset },
    }
}

#[tactic(auto, using(words::proofs::Tests::tests), unfolding(crate::specs::Forms::ldsp_of))]
fn ldsp(rd: u32, offset: u32) -> ShortForm
    ensures { result ≡ ldsp_of rd offset }
{
    match rd {
        0 => return ShortForm::NoForm,
        _ => return ShortForm::Ldsp { rd, offset },
    }
}

#[tactic(auto, using(words::proofs::Tests::tests), unfolding(crate::specs::Forms::moves_of))]
fn moves(rd: u32, rs2: u32) -> ShortForm
    ensures { result ≡ moves_of rd rs2 }
{
    match rs2 {
        0 => match rd {
            0 => return ShortForm::NoForm,
            _ => return ShortForm::Jr { rs1: rd },
        },
        _ => return ShortForm::Mv { rd, rs2 },
    }
}

#[tactic(auto, using(words::proofs::Tests::tests), unfolding(crate::specs::Forms::adds_of))]
fn adds(rd: u32, rs2: u32) -> ShortForm
    ensures { result ≡ adds_of rd rs2 }
{
    match rs2 {
        0 => match rd {
            0 => return ShortForm::Ebreak,
            _ => return ShortForm::Jalr { rs1: rd },
        },
        _ => return ShortForm::Add { rd, rs2 },
    }
}

#[tactic(auto, using(words::proofs::Tests::tests), unfolding(crate::specs::Forms::registers_of))]
fn registers(f: u32, rd: u32, rs2: u32) -> ShortForm
    ensures { result ≡ registers_of f rd rs2 }
{
    match f {
        0 => return moves(rd, rs2),
        _ => return adds(rd, rs2),
    }
}

#[tactic(auto, using(words::proofs::Tests::tests), unfolding(crate::specs::Forms::quadrant2))]
pub(crate) fn quadrant_2<const KEPT: bool>(h: u32) -> ShortForm
    ensures { result ≡ quadrant2 h }
{
    let rd = h / 128 % 32;
    let rs2 = h / 4 % 32;
    let f = h / 0x1000 % 2;
    match h / 0x2000 % 8 {
        0 => return slli(f, rd, rs2),
        2 => return lwsp(rd, offset_load_word(h)),
        3 => return ldsp(rd, offset_load_double(h)),
        4 => return registers(f, rd, rs2),
        6 => return ShortForm::Swsp {
            rs2,
            offset: offset_store_word(h),
        },
        7 => return ShortForm::Sdsp {
            rs2,
            offset: offset_store_double(h),
        },
        _ => return ShortForm::NoForm,
    }
}
