// The roots of a script, one assertion each, every one written into the rest of the buffer.
// Under "Ruled out" stand wrong programs that a public function's contract refuses.
#![tactic(auto)]

ghost use Rattle.std.specs.Prelude.{◌≡◌, ◌≤◌, length};
ghost use Rattle.echo_bytes.specs.Page.{page, start, written};
ghost use Rattle.echo_walk.specs.Walks.{text_at, Fine};
ghost use Rattle.echo_roots.specs.Roots.{root_text, roots_text, AllFine};

use echo_bytes::{Place, start};
use echo_lines::{close_line, open_assert};
use echo_walk::Walk;

// One root as an assertion, at the start of what is lent.
fn echo_root(walk: &Walk, root: u64, out: &mut [u8]) -> Place
    requires { Fine walk.now root }
    ensures { page result out.new ≡ written (page start out.old) (root_text (text_at walk.now) root) }
{
    let opened = open_assert(start(), out);
    let term = walk.echo_node(opened, root, out);
    close_line(term, out)
}

// The roots in order, each written into the rest of the buffer. A full buffer stops nothing. Ruled out: the first root for all; a walk that a
// full buffer ends.
pub fn echo_roots(walk: &Walk, roots: &[u64], p: Place, out: &mut [u8]) -> Place
    requires { AllFine walk.now roots.now × (p.at ≤ length out.old) }
    ensures { page result out.new ≡ written (page p out.old) (roots_text (text_at walk.now) roots.now) }
{
    let mut q = p;
    for root in roots {
        let at = q.at;
        let r = echo_root(walk, *root, &mut out[at..]);
        q = q.moved(r.at, r.need);
    }
    q
}
