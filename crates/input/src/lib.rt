// Reading what a program is given into a buffer that it has.
#![tactic(auto)]

ghost use Rattle.std.specs.Prelude.{◌≡◌, ◌≤◌, length, take};
ghost use Rattle.std.specs.Io.KnownBytes.{Consumes};

use std::io::Read;

// Reads until `buf` is full, the reader ends or a read fails, and answers how many bytes it put at the
// start of `buf`: these the reader gave, in their order. The clause `value` is what `&buf[..r]` asks of
// a caller.
pub fn read_full<R: Read>(reader: &mut R, buf: &mut [u8]) -> usize
    ensures upper_bound { result ≤ length buf.new }
    ensures value { result ≡ length (take result buf.new) }
    ensures bytes { Consumes (R.remaining reader.old) (R.remaining reader.new) (take result buf.new) }
{
    let mut done = 0;
    while done < buf.len() {
        match reader.read(&mut buf[done..]) {
            Ok(0) => return done,
            Ok(n) => done += n,
            Err(_) => return done,
        }
    }
    done
}
