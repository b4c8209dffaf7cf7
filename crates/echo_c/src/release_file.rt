// One meaning for a name in a release, for C.
ghost use Rattle.std.specs.Prelude.{◌≡◌};
ghost use Rattle.releases.specs.Release.{«release_answer»};
ghost use Rattle.release.specs.Numbers.{numbers_of};

use release::numbers::ReleaseAnswer;

// What is told of a file of scripts end to end.
#[unsafe(no_mangle)]
pub extern "C" fn check_release(file: &[u8]) -> ReleaseAnswer
    ensures { numbers_of result ≡ «release_answer» file.now }
{
    ReleaseAnswer::from(release::check_release(file))
}
