// What is listed of a half: of the form that it is.
ghost use Rattle.std.specs.Prelude.{◌≡◌};
ghost use Rattle.forms.specs.ShortShapes.{nop_shape, addi_shape, short_shape};
ghost use Rattle.forms.specs.ShortShapes.{named};

use crate::Shape;
use crate::rows::UNLISTED;
use crate::shapes::{bare, one, three, two, upper};
use instructions::LAST_REGISTER;
use short_forms::ShortForm;

// A field of five bits can name what is no register.
fn named(n: u32, s: Shape) -> Shape
    ensures { result ≡ named n s }
{
    match n {
        0..=LAST_REGISTER => s,
        _ => bare(UNLISTED),
    }
}

fn nop_shape(value: u32) -> Shape
    ensures { result ≡ nop_shape value }
{
    if value == 0 {
        return bare(90);
    }
    one(90, value)
}

fn addi_shape(rd: u32, value: u32) -> Shape
    ensures { result ≡ addi_shape rd value }
{
    if rd == 0 {
        return nop_shape(value);
    }
    two(91, rd, value)
}

#[tactic(auto, unfolding(crate::specs::ShortShapes::short_shape))]
pub(crate) fn short_shape(s: ShortForm) -> Shape
    ensures { result ≡ short_shape s }
{
    match s {
        ShortForm::Addi4spn { rd, value } => two(85, rd, value),
        ShortForm::Lw { rd, rs1, offset } => three(86, rd, rs1, offset),
        ShortForm::Ld { rd, rs1, offset } => three(87, rd, rs1, offset),
        ShortForm::Sw { rs1, rs2, offset } => three(88, rs1, rs2, offset),
        ShortForm::Sd { rs1, rs2, offset } => three(89, rs1, rs2, offset),
        ShortForm::Addi { rd, value } => named(rd, addi_shape(rd, value)),
        ShortForm::Jal { offset } => one(92, offset),
        ShortForm::Li { rd, value } => named(rd, two(93, rd, value)),
        ShortForm::Addi16sp { value } => one(94, value),
        ShortForm::Lui { rd, value } => named(rd, two(95, rd, upper(value))),
        ShortForm::Srli { rd, shamt } => two(96, rd, shamt),
        ShortForm::Srai { rd, shamt } => two(97, rd, shamt),
        ShortForm::Andi { rd, value } => two(98, rd, value),
        ShortForm::Sub { rd, rs2 } => two(99, rd, rs2),
        ShortForm::Xor { rd, rs2 } => two(100, rd, rs2),
        ShortForm::Or { rd, rs2 } => two(101, rd, rs2),
        ShortForm::And { rd, rs2 } => two(102, rd, rs2),
        ShortForm::J { offset } => one(103, offset),
        ShortForm::Beqz { rs1, offset } => two(104, rs1, offset),
        ShortForm::Bnez { rs1, offset } => two(105, rs1, offset),
        ShortForm::Slli { rd, shamt } => named(rd, two(106, rd, shamt)),
        ShortForm::Lwsp { rd, offset } => named(rd, two(107, rd, offset)),
        ShortForm::Ldsp { rd, offset } => named(rd, two(108, rd, offset)),
        ShortForm::Jr { rs1 } => named(rs1, one(109, rs1)),
        ShortForm::Mv { rd, rs2 } => named(rd, named(rs2, two(110, rd, rs2))),
        ShortForm::Ebreak => bare(111),
        ShortForm::Jalr { rs1 } => named(rs1, one(112, rs1)),
        ShortForm::Add { rd, rs2 } => named(rd, named(rs2, two(113, rd, rs2))),
        ShortForm::Swsp { rs2, offset } => named(rs2, two(114, rs2, offset)),
        ShortForm::Sdsp { rs2, offset } => named(rs2, two(115, rs2, offset)),
        ShortForm::NoForm => bare(UNLISTED),
    }
}
