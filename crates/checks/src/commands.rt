// Commands, below a surrounding label (the scope, "Typing"; the paper, figure 5).
ghost use Rattle.std.specs.Prelude.{◌≡◌};
ghost use Rattle.checks.specs.Internal.Nodes.{refused, skip_passed, seq_passed, assign_passed, while_passed};
ghost use Rattle.checks.specs.Internal.Nodes.{case_passed};

use crate::expressions::is_type;
use crate::{Holds, Passed, Typed};
use members::Members;
use sheet::{INT_OR_INT, is_sum};

pub fn not_passed(next: usize) -> Passed
    ensures { result ≡ refused next }
{
    Passed::plain(false, next)
}

pub fn of_skip(next: usize) -> Passed
    ensures { result ≡ skip_passed next }
{
    Passed::plain(true, next)
}

pub fn of_seq(x: Passed, y: Passed) -> Passed
    ensures { result ≡ seq_passed x y }
{
    Passed {
        typed: x.typed & y.typed,
        holds: x.holds.and(y.holds),
        next: y.next,
    }
}

// An assignment to location x below the surrounding label pc.
pub fn of_assign(table: &[sheet::Word], x: u32, pc: Members, e: Typed) -> Passed
    ensures { result ≡ assign_passed table.now x pc e }
{
    let label = members::join(e.label, pc);
    let flow = members::whole_flows(table, label, sheet::location_label(table, x));
    Passed {
        typed: is_type(e, sheet::location_type(table, x)),
        holds: e.holds.and(Holds { flow, ..Holds::ALL }),
        next: e.next,
    }
}

pub fn of_while(guard: Typed, body: Passed) -> Passed
    ensures { result ≡ while_passed guard body }
{
    Passed {
        typed: is_type(guard, INT_OR_INT) & body.typed,
        holds: guard.holds.and(body.holds),
        next: body.next,
    }
}

// A call would take as much as what it does, and a larger frame of the caller's recursion.
#[inline(always)]
pub fn of_case(table: &[sheet::Word], x: Typed, y: Passed, z: Passed) -> Passed
    ensures { result ≡ case_passed table.now x y z }
{
    let branches = y.typed & z.typed;
    Passed {
        typed: x.typed & (is_sum(table, x.ty) & branches),
        holds: x.holds.and(y.holds.and(z.holds)),
        next: z.next,
    }
}
