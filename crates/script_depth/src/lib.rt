// Whether a script is nested more deeply than it is read: one pass over its bytes, with nothing kept but a count.
// Under "Ruled out" stand wrong programs that a public function's contract refuses.
#![tactic(auto)]

ghost use Rattle.std.specs.Prelude.{◌≡◌, ◌≤◌};
ghost use Rattle.script_depth.specs.Nesting.{deepest, turns, opens, too_deep};

// The most brackets that are open at once in a script that is read: reading takes stack for each. It is the header's `ECHO_MAX_SCRIPT_DEPTH`, as
// many as a script of a problem within the limits has at most.
const DEEPEST: usize = 6146;

// What is known behind a byte: does a name go on, and how many brackets are open.
#[derive(Clone, Copy, Default)]
struct Nest {
    named: bool,
    depth: usize,
}

impl Nest {
    // A byte further.
    fn after(self, b: u8) -> Nest
        requires { self.depth ≤ deepest }
        ensures named { result.named ≡ turns self.named b }
        ensures depth { result.depth ≡ opens self.named self.depth b }
    {
        let Nest { named, depth } = self;
        match b {
            b'|' => Nest {
                named: !named,
                depth,
            },
            b'(' if !named => Nest {
                named,
                depth: depth + 1,
            },
            b')' if !named => Nest {
                named,
                depth: depth.saturating_sub(1),
            },
            _ => self,
        }
    }
}

// Are more brackets open at once somewhere? Ruled out: brackets between the bars of a name counted; a script at the limit turned away.
pub fn too_deep(s: &[u8]) -> bool
    ensures { result ≡ too_deep s.now }
{
    let mut nest = Nest::default();
    for b in s {
        if nest.depth > DEEPEST {
            return true;
        }
        nest = nest.after(*b);
    }
    nest.depth > DEEPEST
}
