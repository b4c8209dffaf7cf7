// What the programs read and write, over the standard library's readers and writers: a file that is opened or told to be missing, a buffer
// that is read as full as the reader gives, and a number behind its label.
// Under "Ruled out" stand wrong programs that a public function's contract refuses.
#![tactic(auto)]

ghost use Rattle.std.specs.Prelude.{◌≡◌, ℕ, List, ◌<◌, ◌≤◌, ◌∷◌, [], ◌++◌, length, take, decimal, IfOk, OnOk, OnErr};
ghost use Rattle.std.specs.Io.{ReadsAtMost};
ghost use Rattle.std.specs.Io.KnownBytes.{Appends, Consumes, IsAtEnd};

use std::io::{Read, Write};
use std::rt::Files;
use std::{fs, io};

// The file, open for reading. One that does not open is told on standard error, its path and then why, and is no error of the caller's.
pub fn open<R: Files + Eprint>(rt: &R, path: &str) -> io::Result<Option<R::File>> {
    match fs::open(rt, path) {
        Ok(file) => Ok(Some(file)),
        Err(e) => {
            eprintln!(rt; "{path}: {e}")?;
            Ok(None)
        }
    }
}

// Reads until the buffer is full or the reader has no more, and answers how many bytes were read. A read that fails ends it. Ruled out: an
// early answer where the reader has more; a byte that is lost or stands in another place.
pub fn read_full<R: Read>(reader: &mut R, buf: &mut [u8]) -> io::Result<usize>
    ensures within { ReadsAtMost result buf.new }
    ensures bytes { IfOk result (λ n. Consumes (R.remaining reader.old) (R.remaining reader.new) (take n buf.new)) }
    ensures end { IfOk result (λ n. n < length buf.new → IsAtEnd (R.remaining reader.new)) }
    ensures err { OnErr result ((n : ℕ) × (n ≤ length buf.new) × Consumes (R.remaining reader.old) (R.remaining reader.new) (take n buf.new)) }
{
    let mut done = 0;
    // Kept: each read tells how many bytes it gave.
    while done < buf.len() {
        let n = reader.read(&mut buf[done..])?;
        if n == 0 {
            return Ok(done);
        }
        done += n;
    }
    Ok(done)
}

// The label and the number in decimal. Ruled out: the number alone; a line's end behind it.
pub fn write_number<W: Write>(out: &mut W, label: &[u8], n: u64) -> io::Result<()>
    ensures { OnOk result (Appends (W.contents out.old) (W.contents out.new) (label.now ++ decimal n)) }
{
    out.write_all(label)?;
    write!(out, "{n}")
}

// The same on a line of its own. Ruled out: no line's end behind it.
pub fn write_line<W: Write>(out: &mut W, label: &[u8], n: u64) -> io::Result<()>
    ensures { OnOk result (Appends (W.contents out.old) (W.contents out.new) (label.now ++ (decimal n ++ (10 ∷ [])))) }
{
    write_number(out, label, n)?;
    out.write_all(b"\n")
}

#[cfg(test)]
mod tests {
    use super::{read_full, write_line, write_number};
    use std::io;
    use std::io::Read;
    use std::test::Fail;

    // Gives at most two bytes a call, and fails once, after `before` calls.
    #[derive(Drop)]
    struct Halting {
        bytes: &'static [u8],
        before: u8,
    }

    impl Read for Halting {
        fn read(&mut self, buf: &mut [u8]) -> io::Result<usize> {
            if self.before == 0 {
                self.before = 255;
                return Err(io::Error::from(io::ErrorKind::Other));
            }
            self.before -= 1;
            let n = self.bytes.len().min(buf.len()).min(2);
            buf[..n].copy_from_slice(&self.bytes[..n]);
            self.bytes = &self.bytes[n..];
            Ok(n)
        }
    }

    #[test]
    fn reads_until_full_or_at_the_end(rt: HostRuntime) -> Result<(), Fail> {
        let mut reader = Halting {
            bytes: b"abcdefg",
            before: 100,
        };
        let mut buf = [b'-'; 5];
        assert_eq!(rt; read_full(&mut reader, &mut buf)?, 5);
        assert_eq!(rt; &buf, b"abcde");
        assert_eq!(rt; read_full(&mut reader, &mut buf)?, 2);
        assert_eq!(rt; &buf, b"fgcde");
        assert_eq!(rt; read_full(&mut reader, &mut buf)?, 0);
        assert_eq!(rt; read_full(&mut reader, &mut [])?, 0);
        Ok(())
    }

    #[test]
    fn passes_a_failed_read_on(rt: HostRuntime) -> Result<(), Fail> {
        let mut reader = Halting {
            bytes: b"abcdefg",
            before: 2,
        };
        let mut buf = [b'-'; 5];
        assert!(rt; read_full(&mut reader, &mut buf).is_err());
        assert_eq!(rt; &buf, b"abcd-");
        assert_eq!(rt; read_full(&mut reader, &mut buf)?, 3);
        assert_eq!(rt; &buf, b"efgd-");
        Ok(())
    }

    #[test]
    fn writes_numbers(rt: HostRuntime) -> Result<(), Fail> {
        let mut text = Vec::new(rt.alloc());
        write_number(&mut text, b"refused with ", 10)?;
        write_line(&mut text, b": ", 0)?;
        write_line(&mut text, b"most ", u64::MAX)?;
        assert_eq!(rt;
            text.as_slice(),
            &b"refused with 10: 0\nmost 18446744073709551615\n"[..]
        );
        Ok(())
    }
}
