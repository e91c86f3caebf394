// Whether rows are those of one command, whose names are there.
ghost use Rattle.std.specs.Prelude.{◌≡◌, ℕ, ltb};
ghost use Rattle.script_text.specs.Internal.Decoded.{counts_in};
ghost use Rattle.script_text.specs.Internal.Scan.{names_there, ScansExpr, ScansCmd, Balanced, Whole};

use script::{
    ASSIGN, CASE, DEPTH, FIRST, INT, LEFT, LOC, PACK, PAIR, PLUS, RIGHT, ROW, SECOND, SEQ, SKIP,
    UNPACK, VAR, WHILE, operands, row_at,
};
use sheet::{labels, locations, types};

// Whether a number names one of the types, labels or locations that a table counts.
fn is_there<F: FnOnce(&[sheet::Word]) -> u32>(number: u32, table: &[sheet::Word], count: F) -> bool
    requires { F.pre count table }
    ensures { (n : ℕ) × F.post count table.entry n × (result ≡ ltb number n) }
{
    number < count(table)
}

// Whether the numbers of a line with operands, of an expression, name types and labels that are there.
#[tactic(auto, unfolding(logic::specs::Booleans::either, logic::specs::Booleans::both))]
fn names_there(table: &[sheet::Word], kind: u32, a: u32, b: u32) -> bool
    ensures { result ≡ names_there (counts_in table.now) kind a b }
{
    match kind {
        LEFT | RIGHT | PAIR => is_there(a, table, types),
        PACK => is_there(a, table, labels),
        UNPACK => is_there(a, table, types) && is_there(b, table, labels),
        _ => true,
    }
}

// Where the row after an expression below `depth` cases starts, if one starts at word `at`. (Here and below the match
// is over the kinds' numbers, and the walk calls itself: the scope's forms.)
fn scan_expr(code: &[u32], at: usize, table: &[sheet::Word], depth: u32) -> Option<usize>
    ensures { ScansExpr (counts_in table.now) depth code.now at result }
{
    let row = row_at(code, at);
    let kind = row.kind;
    match kind {
        INT => Some(at + ROW),
        LOC => is_there(row.a, table, locations).then_some(at + ROW),
        VAR => (row.a < depth).then_some(at + ROW),
        // One call for the operand that each of these starts with, since each call takes its own place in every frame.
        PLUS | LEFT | RIGHT | PACK | UNPACK | PAIR | FIRST | SECOND => {
            if !names_there(table, kind, row.a, row.b) {
                return None;
            }
            let next = scan_expr(code, at + ROW, table, depth)?;
            match kind {
                // And one for a second operand.
                PLUS | PAIR => scan_expr(code, next, table, depth),
                _ => Some(next),
            }
        }
        _ => None,
    }
}

// Where the row after a command below `depth` cases starts, if one starts at word `at`.
fn scan_cmd(code: &[u32], at: usize, table: &[sheet::Word], depth: u32) -> Option<usize>
    ensures { ScansCmd (counts_in table.now) depth code.now at result }
{
    let row = row_at(code, at);
    match row.kind {
        SKIP => Some(at + ROW),
        SEQ => {
            let second = scan_cmd(code, at + ROW, table, depth)?;
            scan_cmd(code, second, table, depth)
        }
        ASSIGN => {
            if !is_there(row.a, table, locations) {
                return None;
            }
            scan_expr(code, at + ROW, table, depth)
        }
        WHILE => {
            let body = scan_expr(code, at + ROW, table, depth)?;
            scan_cmd(code, body, table, depth)
        }
        CASE => {
            if DEPTH <= depth {
                return None;
            }
            let first = scan_expr(code, at + ROW, table, depth)?;
            let second = scan_cmd(code, first, table, depth + 1)?;
            scan_cmd(code, second, table, depth + 1)
        }
        _ => None,
    }
}

// Whether the operand counts of all lines sum to the number of lines minus one, and no sooner: one tree, with all
// its operands. Whatever the kinds are, calls over the lines then nest no deeper than over a script's (crate
// script, Balance).
fn balanced(code: &[u32]) -> bool
    ensures { Balanced code.now result }
{
    let mut trees: usize = 1;
    for row in code.chunks_exact(ROW) {
        if trees == 0 {
            return false;
        }
        trees = trees - 1 + operands(row[0]) as usize;
    }
    trees == 0
}

// Whether the code is that of one command and nothing after it.
pub(crate) fn whole(code: &[u32], table: &[sheet::Word]) -> bool
    ensures { Whole (counts_in table.now) code.now result }
{
    balanced(code) && scan_cmd(code, 0, table, 0).is_some_and(|end| code.len() <= end)
}
