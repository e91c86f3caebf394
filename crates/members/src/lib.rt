// A least label as the set of the labels that it is the join of: bit l is label l of the table, bit 32 + l is I of
// label l, and the empty set is bottom. Labels are fetched where they are compared, so that no frame of the
// recursion holds one.
#![tactic(auto)]

ghost use Rattle.std.specs.Prelude.{◌≡◌, ◌+◌, ◌≤◌, ltb, cond};
ghost use Rattle.std.specs.Iterator.{YieldsFirst, item_count};
ghost use Rattle.sets.specs.Sets.{union, single};
ghost use Rattle.sheet.specs.Sheet.{max_labels};
ghost use Rattle.members.specs.Internal.Members.{label_member, integrity_member, members_of, member_in, join_in};
ghost use Rattle.members.specs.Internal.Members.{whole_flows, confidentiality_flows};

use labels::Label;

pub type Members = u64;

// The least label: the join of nothing.
pub const BOTTOM: Members = 0;

// The most labels of a table.
const LABELS: u32 = sheet::MOST_LABELS;

// Sets of labels alone are the numbers below this one.
const PAST_LABELS: Members = 1 << LABELS;

// {label l}; empty for a number that names no label.
pub fn label(l: u32) -> Members
    ensures { result ≡ label_member l }
{
    alone(0, l)
}

// {I of label l}, likewise.
pub fn integrity(l: u32) -> Members
    ensures { result ≡ integrity_member l }
{
    alone(LABELS, l)
}

// {first + l}: label l's member of those that start at `first`; empty for a number that names no label.
fn alone(first: u32, l: u32) -> Members
    requires { first ≤ max_labels }
    ensures { result ≡ cond (ltb l max_labels) (single (first + l)) 0 }
{
    if l >= LABELS {
        return BOTTOM;
    }
    (1 as Members) << (first + l)
}

// The join of both.
pub fn join(x: Members, y: Members) -> Members
    ensures { result ≡ union x y }
{
    x | y
}

// The members of a set, the lowest first.
#[derive(Drop)]
struct Each {
    rest: Members,
}

impl Iterator for Each {
    type Item = u32;

    ghost next_gives = { YieldsFirst (λ e. members_of e.rest) };

    ghost remaining = { item_count (λ e. members_of e.rest) };

    fn next(&mut self) -> Option<u32> {
        if self.rest == 0 {
            return None;
        }
        let p = self.rest.trailing_zeros();
        self.rest -= (1 as Members) << p;
        Some(p)
    }
}

// The label of member p.
fn member(table: &[sheet::Word], p: u32) -> Label
    ensures { result ≡ member_in table.now p }
{
    if p < LABELS {
        return sheet::label_of(table, p);
    }
    let label = sheet::label_of(table, p - LABELS);
    label.integrity(sheet::everyone(table))
}

// The join of the members' labels.
fn joined(table: &[sheet::Word], members: Members) -> Label
    ensures { result ≡ join_in table.now members }
{
    let mut out = Label::bottom(sheet::everyone(table));
    let each = Each { rest: members };
    for p in each {
        out = out.join(member(table, p));
    }
    out
}

// Whether C of the join of the members is at or below C of label l. Each label is tested by itself, so nothing is
// joined; C of I of a label is bottom, which is tested first.
pub fn confidentiality_flows(table: &[sheet::Word], members: Members, l: u32) -> bool
    ensures { result ≡ confidentiality_flows table.now members l }
{
    let upper = sheet::label_of(table, l);
    let mut all = upper.readers_within(sheet::everyone(table));
    let labels = Each {
        rest: members % PAST_LABELS,
    };
    for p in labels {
        let lower = sheet::label_of(table, p);
        all = all & lower.confidentiality_at_or_below(upper);
    }
    all
}

// Whether the join of the members is at or below label l.
pub fn whole_flows(table: &[sheet::Word], members: Members, l: u32) -> bool
    ensures { result ≡ whole_flows table.now members l }
{
    joined(table, members).at_or_below(sheet::label_of(table, l))
}
