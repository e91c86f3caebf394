// Commands over the lines, below a surrounding label.
ghost use Rattle.checker.specs.Internal.Post.{ChecksCmd};

use crate::bindings::{Bindings, DEPTH};
use crate::expressions::check_expr;
use checks::Passed;
use checks::commands::{not_passed, of_assign, of_case, of_seq, of_skip, of_while};
use members::Members;

// Checks the command whose lines start at the word `at`, below the cases that bind and the surrounding label pc.
pub(crate) fn check_cmd(
    code: &[u32],
    at: usize,
    table: &[sheet::Word],
    bound: &mut Bindings,
    pc: Members,
) -> Passed
    ensures { ChecksCmd code.now at table.now bound.old pc result bound.new }
{
    let row = script::row_at(code, at);
    let kind = row.kind;
    match kind {
        script::SKIP => of_skip(at + script::ROW),
        script::SEQ => {
            let first = check_cmd(code, at + script::ROW, table, bound, pc);
            let second = check_cmd(code, first.next, table, bound, pc);
            of_seq(first, second)
        }
        // One call for the expression that each of these starts with, since each local takes its own
        // place in every frame.
        script::ASSIGN | script::WHILE | script::CASE => {
            let x = check_expr(code, at + script::ROW, table, bound);
            match kind {
                script::ASSIGN => of_assign(table, row.a, pc, x),
                script::WHILE => {
                    let inside = members::join(pc, x.label);
                    let body = check_cmd(code, x.next, table, bound, inside);
                    of_while(x, body)
                }
                script::CASE => {
                    if bound.depth >= DEPTH {
                        return not_passed(at);
                    }
                    let inside = members::join(pc, x.label);
                    bound.enter(sheet::left_part(table, x.ty), x.label);
                    let y = check_cmd(code, x.next, table, bound, inside);
                    bound.leave();
                    bound.enter(sheet::right_part(table, x.ty), x.label);
                    let z = check_cmd(code, y.next, table, bound, inside);
                    bound.leave();
                    of_case(table, x, y, z)
                }
                _ => not_passed(at),
            }
        }
        _ => not_passed(at),
    }
}
