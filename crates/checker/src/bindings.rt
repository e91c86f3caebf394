// The type and the least label that each enclosing case binds, outermost first.
use checks::Typed;
use checks::expressions::no_type;
use members::Members;

// Cases nest at most this deep.
pub(crate) const DEPTH: usize = script::DEPTH as usize;

// What one case binds: its type's number and its label.
#[derive(Clone, Copy)]
pub(crate) struct Binding {
    pub(crate) ty: u32,
    pub(crate) label: Members,
}

// What the enclosing cases bind; the places past them may hold anything.
#[derive(Drop)]
pub(crate) struct Bindings {
    pub(crate) cases: [Binding; DEPTH],
    pub(crate) depth: usize,
}

impl Bindings {
    ghost use Rattle.std.specs.Prelude.{◌≡◌, ◌<◌};
    ghost use Rattle.script.specs.Names.{max_depth};
    ghost use Rattle.checker.specs.Internal.Bindings.{Within, enter_of, leave_of, var_typed};

    // Below no case.
    pub(crate) fn none() -> Bindings
        ensures within { Within result }
        ensures none { result.depth ≡ 0 }
    {
        let place = Binding {
            ty: 0,
            label: members::BOTTOM,
        };
        Bindings {
            cases: [place; DEPTH],
            depth: 0,
        }
    }

    // Binds a type and a label, one case deeper.
    pub(crate) fn enter(&mut self, ty: u32, label: Members)
        requires { self.old.depth < max_depth }
        ensures { self.new ≡ enter_of self.old ty label }
    {
        self.cases[self.depth] = Binding { ty, label };
        self.depth += 1;
    }

    // Leaves the innermost case.
    pub(crate) fn leave(&mut self)
        requires { 0 < self.old.depth }
        ensures { self.new ≡ leave_of self.old }
    {
        self.depth -= 1;
    }

    // Variable d, which counts from the innermost case.
    pub(crate) fn variable(&self, d: u32, next: usize) -> Typed
        ensures { result ≡ var_typed self.now d next }
    {
        let i = d as usize;
        if i >= self.depth {
            return no_type(next);
        }
        let at = self.depth - 1 - i;
        if at >= DEPTH {
            return no_type(next);
        }
        let case = self.cases[at];
        Typed::plain(case.ty, case.label, next)
    }
}
