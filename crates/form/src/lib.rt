// A step, read from the thirteen bytes of a call; anything else is malformed. What a step is written as is in specs.
// It uses base to read bytes, and rules for what they say.
#![tactic(auto)]

ghost use Rattle.std.specs.Prelude.{◌≡◌};
ghost use Rattle.base.specs.Bytes.{number_at};
ghost use Rattle.rules.specs.Form.{all_zero, select, ops, read};
ghost use Rattle.form.specs.Written.{held};

use base::byte_at;
use rules::{Fields, Step};

// Whether fields that an op does not name are 0.
pub fn all_zero(a: u8, b: u8, c: u8, board: u64) -> bool
    ensures { result ≡ all_zero a b c board }
{
    (a, b, c, board) == (0, 0, 0, 0)
}

// The number in the eight bytes from byte 5 on, high byte first. Taken from an array it is one read; added up byte by
// byte it took twenty instructions more within the engine's step.
fn board_in(s: &[u8]) -> u64
    ensures { result ≡ number_at s.now 5 8 }
{
    u64::from_be_bytes([
        byte_at(s, 5),
        byte_at(s, 6),
        byte_at(s, 7),
        byte_at(s, 8),
        byte_at(s, 9),
        byte_at(s, 10),
        byte_at(s, 11),
        byte_at(s, 12),
    ])
}

// The fields that thirteen bytes hold.
pub fn fields_of(s: &[u8]) -> Fields
    ensures { result ≡ held s.now }
{
    Fields {
        op: byte_at(s, 0),
        peer: byte_at(s, 1),
        other: byte_at(s, 2),
        period: byte_at(s, 3),
        item: byte_at(s, 4),
        board: board_in(s),
    }
}

#[tactic(auto, using(crate::proofs::Ops::by_op), unfolding(rules::specs::Form::select, rules::specs::Form::ops, rules::specs::Form::later_ops))]
// The step of these fields, if those that its op does not name are 0.
fn read_op(f: Fields) -> Option<Step>
    ensures { result ≡ select f.op (ops f.peer f.other f.period f.item f.board) }
{
    let Fields {
        op,
        peer: j,
        other: k,
        period: p,
        item: x,
        board,
    } = f;
    match op {
        1 => all_zero(j, k, p, board).then_some(Step::Post(x)),
        2 => all_zero(k, p, 0, board).then_some(Step::Hand(j, x)),
        3 => all_zero(k, p, 0, board).then_some(Step::Sign(j, x)),
        4 => all_zero(0, 0, 0, board).then_some(Step::Take(j, k, p, x)),
        5 => all_zero(k, p, 0, board).then_some(Step::Share(j, x)),
        6 => all_zero(j, k, 0, board).then_some(Step::Receipt(p, x)),
        7 => all_zero(k, p, x, board).then_some(Step::Close(j)),
        8 => all_zero(x, 0, 0, board).then_some(Step::Fetch(j, k, p)),
        9 => all_zero(k, x, 0, board).then_some(Step::SendHash(j, p)),
        10 => all_zero(k, p, 0, board).then_some(Step::Hear(j, x)),
        11 => all_zero(k, p, x, board).then_some(Step::Back(j)),
        12 => all_zero(j, k, p, board).then_some(Step::Publish(x)),
        13 => all_zero(k, 0, 0, board).then_some(Step::FalseSignature(j, p, x)),
        14 => all_zero(k, 0, 0, board).then_some(Step::FalseShare(j, p, x)),
        15 => all_zero(k, x, 0, 0).then_some(Step::FalseHash(j, p, board)),
        16 => all_zero(k, x, 0, 0).then_some(Step::FalseBacking(j, p, board)),
        17 => all_zero(k, p, x, board).then_some(Step::Down(j)),
        18 => all_zero(k, p, x, board).then_some(Step::Up(j)),
        19 => all_zero(j, k, x, board).then_some(Step::ClearHashes(p)),
        _ => None,
    }
}

// The step that the bytes of a call say.
pub fn read_step(s: &[u8]) -> Option<Step>
    ensures { result ≡ read s.now }
{
    if s.len() != 13 {
        return None;
    }
    read_op(fields_of(s))
}
