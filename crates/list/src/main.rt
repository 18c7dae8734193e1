// The listing program: a block on standard input, and its listing on standard output. It only reads, calls and writes: what it prints is
// `list_text::print` of the block. Where the input cannot be read, it says so on standard error and prints nothing.
#![tactic(auto)]

use std::io;
use std::io::Write;

fn main(rt: HostRuntime) -> io::Result<()> {
    let Ok(block) = input::block(&mut rt.stdin()) else {
        return rt.stderr().write_all(b"list: the block cannot be read\n");
    };
    let mut output = rt.stdout();
    output.write_all(list_text::print(&block).as_bytes())?;
    output.flush()
}
