// Expressions over the lines.
ghost use Rattle.checks.specs.Internal.Nodes.{plus_typed, pair_typed};
ghost use Rattle.checker.specs.Internal.Post.{ChecksExpr, ChecksSecond};

use crate::bindings::Bindings;
use checks::Typed;
use checks::expressions::{
    no_type, of_int, of_location, of_pack, of_pair, of_part, of_plus, of_sum, of_unpack,
};

// Checks the expression whose lines start at the word `at`, below the cases that bind. The code and the table are
// handed over apart: in a struct of both the table's length is no longer a constant, and a check takes up to 9 % more.
#[cycle(expression)]
pub(crate) fn check_expr(code: &[u32], at: usize, table: &[sheet::Word], bound: &Bindings) -> Typed
    ensures { ChecksExpr code.now at table.now bound.now result }
{
    let row = script::row_at(code, at);
    let kind = row.kind;
    let a = row.a;
    match kind {
        script::INT => of_int(at + script::ROW),
        script::LOC => of_location(table, a, at + script::ROW),
        script::VAR => bound.variable(a, at + script::ROW),
        // One call for the operand that each of these starts with, since each local takes its own place in every frame.
        script::PLUS
        | script::LEFT
        | script::RIGHT
        | script::PACK
        | script::UNPACK
        | script::PAIR
        | script::FIRST
        | script::SECOND => {
            let x = check_expr(code, at + script::ROW, table, bound);
            match kind {
                script::PLUS => check_added(code, x, table, bound),
                script::PAIR => check_paired(code, x, table, bound, a),
                script::LEFT => of_sum(table, a, sheet::left_part(table, a), x),
                script::RIGHT => of_sum(table, a, sheet::right_part(table, a), x),
                script::PACK => of_pack(table, a, x),
                script::UNPACK => of_unpack(table, a, row.b, x),
                script::FIRST => of_part(table, sheet::left_part(table, x.ty), x),
                script::SECOND => of_part(table, sheet::right_part(table, x.ty), x),
                _ => no_type(at),
            }
        }
        _ => no_type(at),
    }
}

// Checks the second operand of a `+` after the first, x. It and `check_paired` are apart from `check_expr`, so that no
// other line's frame has the room for a second operand.
#[inline(never)]
#[cycle(expression)]
fn check_added(code: &[u32], x: Typed, table: &[sheet::Word], bound: &Bindings) -> Typed
    ensures { ChecksSecond code.now table.now bound.now x (plus_typed x) result }
{
    let y = check_expr(code, x.next, table, bound);
    of_plus(x, y)
}

// The same of a pair of type `ty`.
#[inline(never)]
#[cycle(expression)]
fn check_paired(code: &[u32], x: Typed, table: &[sheet::Word], bound: &Bindings, ty: u32) -> Typed
    ensures { ChecksSecond code.now table.now bound.now x (pair_typed table.now ty x)
        result }
{
    let y = check_expr(code, x.next, table, bound);
    of_pair(table, ty, x, y)
}
