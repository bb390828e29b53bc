// Reads a map file from standard input and writes its sheet to standard output.
#![tactic(auto)]

ghost use Rattle.std.specs.Prelude.{IfOk};
ghost use Rattle.std.specs.Counts.{IsPrefixLen};

use std::io;
use std::io::{Read, Stdin};

// Reads until the buffer is full or the input ends, however few bytes come at a time, and gives how many were read.
// Each program has its own: a crate that they share would be longer.
fn read_full(mut from: Stdin, buf: &mut [u8]) -> io::Result<usize>
    ensures { IfOk result (λ n. IsPrefixLen n buf.new) }
{
    let mut done = 0;
    // no `for`: each read tells how many bytes it was
    while done < buf.len() {
        let more = from.read(&mut buf[done..])?;
        if more == 0 {
            break;
        }
        done += more;
    }
    Ok(done)
}

// A file that is too long is read one byte past the limit, no further. There is no exit status: a failure is told on standard error.
fn main(rt: HostRuntime) {
    let mut space = [0u8; sheet::LIMIT + 1];
    let Ok(size) = read_full(rt.stdin(), &mut space) else {
        let _ = eprintln!(rt; "paths: standard input cannot be read");
        return;
    };
    let mut out = [0u8; sheet::OUTPUT];
    let n = sheet::sheet(&space[..size], &mut out);
    if rt.write_all(&out[..n]).is_err() {
        let _ = eprintln!(rt; "paths: standard output cannot be written");
    }
}
