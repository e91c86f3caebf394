// The words of a value: whether they are those of a proper value, and where they end.
ghost use Rattle.std.specs.Prelude.{◌≡◌, Bool, ℕ, ◌+◌, drop};
ghost use Rattle.logic.specs.Booleans.{both};
ghost use Rattle.language.specs.Syntax.{head_size, Value};
ghost use Rattle.memory.specs.Words.{numbered, packaged, read_of};
ghost use Rattle.memory.specs.Memory.{proper};
ghost use Rattle.memory.specs.Internal.Post.{Walks};

// Whether a value is proper, and the place after its words. No Result: a value that isn't proper has such a place, too,
// which value_end promises.
#[derive(Clone, Copy)]
pub(crate) struct Walked {
    pub ok: bool,
    pub next: usize,
}

// The value whose words start at `at`, on a sheet with so many labels.
pub(crate) fn value_at(labels: u32, words: &[u32], at: usize) -> Walked
    ensures { Walks labels words.now at (read_of (drop at words.now)) result.ok result.next }
{
    if words.len() <= at {
        return Walked {
            ok: false,
            next: at,
        };
    }
    // An arm for each word: of an arm for two, the proof doesn't learn what the last arm leaves.
    match words[at] {
        crate::INT => number_at(words, at + 1, |_| true),
        crate::ERROR => number_at(words, at + 1, |e| (1..=3).contains(&e)),
        crate::LEFT => value_at(labels, words, at + 1),
        crate::RIGHT => value_at(labels, words, at + 1),
        crate::PACKAGE => {
            let label = at + crate::LABEL;
            let content = value_at(labels, words, label + crate::HEAD);
            package_at(labels, words, label, content)
        }
        crate::PAIR => {
            let first = value_at(labels, words, at + 1);
            let second = value_at(labels, words, first.next);
            pair_of(first, second)
        }
        _ => Walked {
            ok: false,
            next: at + 1,
        },
    }
}

// A value that is one number, which stands at `at`: proper if the number passes.
fn number_at<F: FnOnce(u32) -> bool>(words: &[u32], at: usize, passes: F) -> Walked
    requires { F.IsAlwaysCallable passes }
    ensures { (labels : ℕ) (f : ℕ → Value)
        → ((n : ℕ) (b : Bool) → F.post passes n b → b ≡ proper labels (f n))
        → Walks labels words.now at (numbered f (drop at words.now)) result.ok result.next }
{
    if words.len() <= at {
        return Walked {
            ok: false,
            next: at,
        };
    }
    Walked {
        ok: passes(words[at]),
        next: at + 1,
    }
}

// A package, whose head stands at `at` before its content.
fn package_at(labels: u32, words: &[u32], at: usize, content: Walked) -> Walked
    ensures { Walks labels words.now (at + head_size)
        (read_of (drop (at + head_size) words.now)) content.ok content.next
        → Walks labels words.now at (packaged read_of (drop at words.now)) result.ok result.next }
{
    if words.len() <= at {
        return Walked {
            ok: false,
            next: at,
        };
    }
    Walked {
        ok: words[at] < labels && content.ok,
        next: content.next,
    }
}

// A pair, by its parts, of which the second stands after the first.
fn pair_of(first: Walked, second: Walked) -> Walked
    ensures { result ≡ record { ok = both first.ok second.ok; next = second.next } }
{
    Walked {
        ok: first.ok && second.ok,
        next: second.next,
    }
}
