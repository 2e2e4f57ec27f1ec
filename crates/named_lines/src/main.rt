// Prints lines by console's functions for names with numbers; what they must be is in `stdout`. One name is longer than the buffer for a name of
// bytes, and one has letters of two bytes.
#![tactic(auto)]

use console::{print_lines, print_lines_of_bytes};
use std::io::Result;

const LONG: &str =
    "a name of 131 bytes goes to its line as a whole, and with a blank behind it the number and the end of the line go where they belong";

fn main(rt: HostRuntime) -> Result<()> {
    print_lines_of_bytes(&rt, &[])?;
    print_lines_of_bytes(&rt, &[(b"none", 0), (b"most", u64::MAX)])?;
    print_lines(&rt, &[])?;
    print_lines(&rt, &[("none", 0), ("most", u64::MAX)])?;
    print_lines(&rt, &[(LONG, 1), ("größte", 2)])
}
