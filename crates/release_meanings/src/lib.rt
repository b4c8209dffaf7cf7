// The scripts of a release held beside one another: how many there are, and the earliest that disagrees with one before it.
// Under "Ruled out" stand wrong programs that a public function's contract refuses.
#![tactic(auto)]

ghost use Rattle.std.specs.Prelude.{◌≡◌, ◌≤◌, leb, length};
ghost use Rattle.script_lines.specs.Lines.{scripts_of};
ghost use Rattle.releases.specs.ReleaseScripts.{AllRead};
ghost use Rattle.release_meanings.specs.Told.{MeaningsTo};

use release_lines::line_feed;
use release_names::Names;
use script_lines::next_script;

// The most scripts of a release.
pub const MOST_SCRIPTS: u64 = 64;

// Are there at most 64 check-sat lines? Ruled out: 64 told as too many; a line counted that stands inside another.
pub fn few_scripts(file: &[u8]) -> bool
    ensures { result ≡ leb (length (scripts_of file.now).scripts) MOST_SCRIPTS }
{
    let mut at = 0;
    let mut k: u64 = 0;
    // Kept: each script tells where the next one starts.
    while let Some(n) = next_script(&file[at..]) {
        if k >= MOST_SCRIPTS {
            return false;
        }
        at += n;
        k += 1;
    }
    true
}

// The earliest script that disagrees with one before it, if there is one: the declarations of the scripts are entered in order, each held
// beside those before it. Ruled out: the script told with which the earliest disagrees; a script held beside the one before it only; a name whose
// widths differ passed over.
pub fn earliest_clash(file: &[u8]) -> Option<u64>
    requires { (length (scripts_of file.now).scripts ≤ MOST_SCRIPTS) × AllRead (scripts_of file.now).scripts }
    ensures { MeaningsTo file.now result }
{
    let mut names = Names::new();
    let mut at = 0;
    let mut k: u64 = 0;
    // Kept: each script tells where the next one starts. An iterator over starts and lengths, for this loop and the one above, would be a type with a
    // law of its own, longer than both.
    while let Some(n) = next_script(&file[at..]) {
        let q = line_feed(file, at) + 1;
        let Ok(()) = names.enter_script(file, q) else {
            return Some(k);
        };
        at += n;
        k += 1;
    }
    None
}
