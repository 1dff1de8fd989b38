// What operators give on words, by C's rules, and where C gives no result by those of the machine: results are taken
// modulo 2 ^ 32 and shift counts modulo 32; a quotient by zero is all ones, and its remainder is the dividend.
use sc_base::BinaryOp;
use sc_event::Scalar;

fn is_less(scalar: Scalar, left: u32, right: u32) -> bool {
    match scalar {
        Scalar::Int => left.cast_signed() < right.cast_signed(),
        Scalar::Unsigned => left < right,
    }
}

fn quotient(scalar: Scalar, left: u32, right: u32) -> u32 {
    if right == 0 {
        return u32::MAX;
    }
    match scalar {
        Scalar::Int => left
            .cast_signed()
            .wrapping_div(right.cast_signed())
            .cast_unsigned(),
        Scalar::Unsigned => left / right,
    }
}

fn remainder(scalar: Scalar, left: u32, right: u32) -> u32 {
    if right == 0 {
        return left;
    }
    match scalar {
        Scalar::Int => left
            .cast_signed()
            .wrapping_rem(right.cast_signed())
            .cast_unsigned(),
        Scalar::Unsigned => left % right,
    }
}

fn shifted_right(scalar: Scalar, left: u32, count: u32) -> u32 {
    match scalar {
        Scalar::Int => (left.cast_signed() >> (count % 32)).cast_unsigned(),
        Scalar::Unsigned => left >> (count % 32),
    }
}

/// What an operator between two words gives, computed in this type.
pub(crate) fn binary(op: BinaryOp, scalar: Scalar, left: u32, right: u32) -> u32 {
    match op {
        BinaryOp::OrElse => u32::from(left != 0 || right != 0),
        BinaryOp::AndAlso => u32::from(left != 0 && right != 0),
        BinaryOp::BitOr => left | right,
        BinaryOp::BitXor => left ^ right,
        BinaryOp::BitAnd => left & right,
        BinaryOp::Equal => u32::from(left == right),
        BinaryOp::NotEqual => u32::from(left != right),
        BinaryOp::Less => u32::from(is_less(scalar, left, right)),
        BinaryOp::Greater => u32::from(is_less(scalar, right, left)),
        BinaryOp::LessEqual => u32::from(!is_less(scalar, right, left)),
        BinaryOp::GreaterEqual => u32::from(!is_less(scalar, left, right)),
        BinaryOp::ShiftLeft => left << (right % 32),
        BinaryOp::ShiftRight => shifted_right(scalar, left, right),
        BinaryOp::Add => left.wrapping_add(right),
        BinaryOp::Sub => left.wrapping_sub(right),
        BinaryOp::Mul => left.wrapping_mul(right),
        BinaryOp::Div => quotient(scalar, left, right),
        BinaryOp::Rem => remainder(scalar, left, right),
    }
}
