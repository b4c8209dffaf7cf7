// Shorter node records and back, for C: `shorten` and `lengthen` with what they convert in their names.
ghost use Rattle.std.specs.Prelude.{◌≡◌};
ghost use Rattle.short_records.specs.Short.{shorten_answer, lengthen_answer};
ghost use Rattle.short_records.specs.Numbers.{converted};

use short_records::numbers::RecordAnswer;

// Records of 17 bytes into shorter ones.
#[unsafe(no_mangle)]
pub extern "C" fn shorten_records(old: &[u8], out: &mut [u8]) -> RecordAnswer
    ensures { converted result out.new ≡ shorten_answer old.now out.old }
{
    RecordAnswer::from(short_records::shorten(old, out))
}

// And back.
#[unsafe(no_mangle)]
pub extern "C" fn lengthen_records(new: &[u8], out: &mut [u8]) -> RecordAnswer
    ensures { converted result out.new ≡ lengthen_answer new.now out.old }
{
    RecordAnswer::from(short_records::lengthen(new, out))
}
