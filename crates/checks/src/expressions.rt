// Types and least labels of expressions (the scope, "Typing"; the paper, figure 4).
ghost use Rattle.std.specs.Prelude.{◌≡◌};
ghost use Rattle.checks.specs.Internal.Nodes.{is_type, nothing, int_typed, loc_typed, two_typed, plus_typed};
ghost use Rattle.checks.specs.Internal.Nodes.{pair_typed, sum_typed, part_typed, pack_typed, unpack_typed};

use crate::{Holds, Typed};
use sheet::{ERROR, INT, PKG, PKG_OR_ERROR, is_pair, is_sum};

// Whether an expression has a type.
pub fn is_type(x: Typed, ty: u32) -> bool
    ensures { result ≡ is_type x ty }
{
    x.typed & (ty == x.ty)
}

pub fn no_type(next: usize) -> Typed
    ensures { result ≡ nothing next }
{
    Typed {
        typed: false,
        ..of_int(next)
    }
}

pub fn of_int(next: usize) -> Typed
    ensures { result ≡ int_typed next }
{
    Typed::plain(INT, members::BOTTOM, next)
}

pub fn of_location(table: &[sheet::Word], x: u32, next: usize) -> Typed
    ensures { result ≡ loc_typed table.now x next }
{
    let label = members::label(sheet::location_label(table, x));
    Typed::plain(sheet::location_type(table, x), label, next)
}

// What two operands make: of type `ty`, if they have the types that it asks for.
fn of_two(typed: bool, ty: u32, x: Typed, y: Typed) -> Typed
    ensures { result ≡ two_typed typed ty x y }
{
    Typed {
        ty,
        typed,
        holds: x.holds.and(y.holds),
        label: members::join(x.label, y.label),
        next: y.next,
    }
}

pub fn of_plus(x: Typed, y: Typed) -> Typed
    ensures { result ≡ plus_typed x y }
{
    of_two(is_type(x, INT) & is_type(y, INT), INT, x, y)
}

// A pair of type `ty`.
pub fn of_pair(table: &[sheet::Word], ty: u32, x: Typed, y: Typed) -> Typed
    ensures { result ≡ pair_typed table.now ty x y }
{
    let first = is_type(x, sheet::left_part(table, ty));
    let second = is_type(y, sheet::right_part(table, ty));
    of_two(is_pair(table, ty) & (first & second), ty, x, y)
}

// A sum of type `ty`, whose part on the operand's side is `part`.
pub fn of_sum(table: &[sheet::Word], ty: u32, part: u32, x: Typed) -> Typed
    ensures { result ≡ sum_typed table.now ty part x }
{
    Typed {
        ty,
        typed: is_sum(table, ty) & is_type(x, part),
        ..x
    }
}

// A part of a pair, of type `part`; it has the label of the whole.
pub fn of_part(table: &[sheet::Word], part: u32, x: Typed) -> Typed
    ensures { result ≡ part_typed table.now part x }
{
    Typed {
        ty: part,
        typed: x.typed & is_pair(table, x.ty),
        ..x
    }
}

pub fn of_pack(table: &[sheet::Word], l: u32, x: Typed) -> Typed
    ensures { result ≡ pack_typed table.now l x }
{
    let flow = members::whole_flows(table, x.label, l);
    Typed {
        ty: PKG_OR_ERROR,
        holds: x.holds.and(Holds { flow, ..Holds::ALL }),
        label: members::integrity(l),
        ..x
    }
}

pub fn of_unpack(table: &[sheet::Word], ty: u32, l: u32, x: Typed) -> Typed
    ensures { result ≡ unpack_typed table.now ty l x }
{
    let or_error = is_sum(table, ty) & (sheet::right_part(table, ty) == ERROR);
    let flow = members::confidentiality_flows(table, x.label, l);
    // Where C isn't at or below the wanted label's, the whole isn't either.
    let keeping = flow && members::whole_flows(table, x.label, l);
    Typed {
        ty,
        typed: is_type(x, PKG) & or_error,
        holds: x.holds.and(Holds { flow, keeping }),
        label: members::label(l),
        ..x
    }
}
