// A number to standard output, behind a space. No contract can say what is written.
use std::io;

// Of a number of any width; of a bool it is 1 for true.
pub fn put(rt: &impl Print, n: impl Into<u64>) -> io::Result<()> {
    let n: u64 = n.into();
    print!(rt; " {n}")
}
