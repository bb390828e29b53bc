// Runs map files from standard input through `sheet`, and prints for each a line with its name, and its sheet. The file `stdout`
// has what an independent model prints. A case is the length of its name (8 bits) and of its file (16 bits), the name, the file.
#![tactic(auto)]

ghost use Rattle.std.specs.Prelude.{IfOk};
ghost use Rattle.std.specs.Counts.{IsPrefixLen};

use std::io;
use std::io::{Read, Stdin};

// Reads until the buffer is full or the input ends, however few bytes come at a time, and gives how many were read.
// Each program has its own: a crate that they share would be longer.
fn read_full(mut from: Stdin, buf: &mut [u8]) -> io::Result<usize>
    ensures { IfOk result (λ n. IsPrefixLen n buf.new) }
{
    let mut done = 0;
    // no `for`: each read tells how many bytes it was
    while done < buf.len() {
        let more = from.read(&mut buf[done..])?;
        if more == 0 {
            break;
        }
        done += more;
    }
    Ok(done)
}

// Prints the line of a case, whose name of this length is next in the input.
fn print_name(rt: &HostRuntime, length: u8) -> io::Result<()> {
    let mut space = [0u8; 255];
    let size = read_full(rt.stdin(), &mut space[..usize::from(length)])?;
    rt.write_all(b"case ")?;
    rt.write_all(&space[..size])?;
    rt.write_all(b"\n")
}

// Prints the sheet of a case, whose file of this length is next in the input.
fn print_sheet(rt: &HostRuntime, length: u16) -> io::Result<()> {
    let mut space = [0u8; 65535];
    let file = read_full(rt.stdin(), &mut space[..usize::from(length)])?;
    let mut out = [0u8; sheet::OUTPUT];
    let size = sheet::sheet(&space[..file], &mut out);
    rt.write_all(&out[..size])
}

// Runs the next case, and answers whether there was one.
fn next_case(rt: &HostRuntime) -> io::Result<bool> {
    let mut space = [0u8; 3];
    if read_full(rt.stdin(), &mut space)? < space.len() {
        return Ok(false);
    }
    let [name, low, high] = space;
    print_name(rt, name)?;
    print_sheet(rt, u16::from_le_bytes([low, high]))?;
    Ok(true)
}

// Nothing says that the input ends, so the turns are counted.
fn main(rt: HostRuntime) -> io::Result<()> {
    for _ in 0..u32::MAX {
        if !next_case(&rt)? {
            break;
        }
    }
    Ok(())
}
